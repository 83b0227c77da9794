//! Keys of two digits, counting up.

ghost use Rattle.std.specs.Prelude.{◌≡◌, ◌<◌};
ghost use Rattle.std.specs.Option.{option_copied};
ghost use Rattle.kvtree.specs.Lookup.{entry_under};
ghost use Rattle.filemap.specs.Numbered.{two_digits};

use kvtree::Tree;

/// A number below 100 in two digits.
pub(crate) fn two_digits(number: usize) -> [u8; 2]
    requires { number < 100 }
    ensures { result ≡ two_digits number }
{
    [b'0' + (number / 10) as u8, b'0' + (number % 10) as u8]
}

/// The child of this number, if it stands at this place.
pub(crate) fn child_of(tree: &Tree, number: usize) -> Option<&Tree>
    requires { number < 100 }
    ensures { option_copied result ≡ entry_under tree.now number (two_digits number) }
{
    tree.child_under(number, &two_digits(number))
}
