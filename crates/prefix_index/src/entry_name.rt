//! The names of index records, made without taking memory.
ghost use Rattle.std.specs.Prelude.{◌≡◌, ◌≤◌, ◌+◌, ◌++◌, [], length, decimal};
ghost use Rattle.prefix_index.specs.Names.{entry_name};
ghost use Rattle.node_device.specs.DeviceState.{IsDeviceName};

use arrayvec::ArrayString;
use itoa::Buffer;
use scr_base::DataId;
use std::marker::Model;

/// The name of an index record, of at most 32 bytes.
#[derive(Drop)]
pub(crate) struct EntryName {
    text: ArrayString<32>,
}

impl Model for EntryName {
    ghost use Rattle.std.specs.Prelude.{List, ℕ};

    ghost Value = { List ℕ };

    ghost view = { λ n. n.text.bytes };
}

impl EntryName {
    fn push(&mut self, text: &str)
        requires { length self.old + length text.now ≤ 32 }
        ensures more { self.new ≡ self.old ++ text.now }
        ensures len { length self.new ≡ length self.old + length text.now }
    {
        let _ = self.text.try_push_str(text);
    }

    fn push_number(&mut self, number: u32)
        requires { length self.old + 10 ≤ 32 }
        ensures more { self.new ≡ self.old ++ decimal number }
        ensures len { length self.new ≤ length self.old + 10 }
    {
        let mut buffer = Buffer::new();
        self.push(buffer.format(number));
    }

    fn new() -> EntryName
        ensures { result ≡ [] }
    {
        EntryName {
            text: ArrayString::new(),
        }
    }

    /// The name of the record of a dataset.
    pub fn of(which: DataId) -> EntryName
        ensures name { result ≡ entry_name which }
        ensures short { IsDeviceName result }
    {
        let mut name = EntryName::new();
        name.push("x.");
        name.push_number(which.id);
        name.push(".");
        name.push_number(which.run);
        name
    }

    pub fn bytes(&self) -> &[u8]
        ensures { result.now ≡ self.now }
    {
        self.text.as_str().as_bytes()
    }
}
