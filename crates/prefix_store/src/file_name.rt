//! The names of flushed files, made without taking memory.
ghost use Rattle.std.specs.Prelude.{◌≡◌, ◌≤◌, ◌+◌, ◌++◌, ◌∷◌, [], length, decimal, codes};
ghost use Rattle.node_device.specs.DeviceState.{IsDeviceName};
ghost use Rattle.prefix_store.specs.Names.{flushed_name};

use arrayvec::ArrayVec;
use itoa::Buffer;
use scr_base::Name;
use std::marker::Model;

/// The name of a flushed file, of at most 160 bytes.
#[derive(Drop)]
pub(crate) struct FileName {
    bytes: ArrayVec<u8, 160>,
}

impl Model for FileName {
    ghost use Rattle.std.specs.Prelude.{List, ℕ};

    ghost Value = { List ℕ };

    ghost view = { λ n. n.bytes.items };
}

impl FileName {
    fn new() -> FileName
        ensures { result ≡ [] }
    {
        FileName {
            bytes: ArrayVec::new(),
        }
    }

    fn push(&mut self, bytes: &[u8])
        requires { length self.old + length bytes.now ≤ 160 }
        ensures more { self.new ≡ self.old ++ bytes.now }
        ensures len { length self.new ≡ length self.old + length bytes.now }
    {
        let _ = self.bytes.try_extend_from_slice(bytes);
    }

    fn push_name(&mut self, name: &Name)
        requires { length self.old + 64 ≤ 160 }
        ensures more { self.new ≡ self.old ++ name.now }
        ensures len { length self.new ≤ length self.old + 64 }
    {
        self.push(name.bytes());
    }

    fn push_number(&mut self, number: u8)
        requires { length self.old + 10 ≤ 160 }
        ensures more { self.new ≡ self.old ++ decimal number }
        ensures len { length self.new ≤ length self.old + 10 }
    {
        let mut buffer = Buffer::new();
        self.push(buffer.format(number as u32).as_bytes());
    }

    /// The name of a flushed file.
    pub fn of(name: &Name, rank: u8, file: &Name) -> FileName
        ensures name { result ≡ flushed_name name.now rank file.now }
        ensures short { IsDeviceName result }
    {
        let mut whole = FileName::new();
        whole.push_name(name);
        whole.push(b"/r");
        whole.push_number(rank);
        whole.push(b"/");
        whole.push_name(file);
        whole
    }

    pub fn bytes(&self) -> &[u8]
        ensures { result.now ≡ self.now }
    {
        self.bytes.as_slice()
    }
}
