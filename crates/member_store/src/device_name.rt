//! The names of a member's files, made without taking memory.
ghost use Rattle.std.specs.Prelude.{◌≡◌, ◌≤◌, ◌+◌, ◌++◌, ◌∷◌, [], length, decimal};
ghost use Rattle.member_store.specs.Names.{member_stem, record_name, part_name};
ghost use Rattle.node_device.specs.DeviceState.{IsDeviceName};

use crate::part::Part;
use arrayvec::ArrayString;
use itoa::Buffer;
use scr_base::DataId;
use std::marker::Model;

/// The name of a file, of at most 64 bytes.
#[derive(Drop)]
pub(crate) struct DeviceName {
    text: ArrayString<64>,
}

impl Model for DeviceName {
    ghost use Rattle.std.specs.Prelude.{List, ℕ};

    ghost Value = { List ℕ };

    ghost view = { λ n. n.text.bytes };
}

impl DeviceName {
    fn new() -> DeviceName
        ensures { result ≡ [] }
    {
        DeviceName {
            text: ArrayString::new(),
        }
    }

    fn push(&mut self, text: &str)
        requires { length self.old + length text.now ≤ 64 }
        ensures more { self.new ≡ self.old ++ text.now }
        ensures len { length self.new ≡ length self.old + length text.now }
    {
        let _ = self.text.try_push_str(text);
    }

    fn push_number(&mut self, number: u32)
        requires { length self.old + 10 ≤ 64 }
        ensures more { self.new ≡ self.old ++ decimal number }
        ensures len { length self.new ≤ length self.old + 10 }
    {
        let mut buffer = Buffer::new();
        self.push(buffer.format(number));
    }

    /// What the names of a member's files begin with.
    fn stem(which: DataId, node: u8) -> DeviceName
        ensures name { result ≡ member_stem which node }
        ensures short { length result ≤ 34 }
    {
        let mut name = DeviceName::new();
        name.push("d.");
        name.push_number(which.id);
        name.push(".");
        name.push_number(which.run);
        name.push(".");
        name.push_number(node as u32);
        name
    }

    /// What the names of a member's files begin with, and a dot.
    pub fn dotted_stem(which: DataId, node: u8) -> DeviceName
        ensures { result ≡ member_stem which node ++ 46 ∷ [] }
    {
        let mut name = DeviceName::stem(which, node);
        name.push(".");
        name
    }

    /// The name of a member's record.
    pub fn of_record(which: DataId, node: u8) -> DeviceName
        ensures name { result ≡ record_name which node }
        ensures short { IsDeviceName result }
    {
        let mut name = DeviceName::stem(which, node);
        name.push(".m");
        name
    }

    /// The name of a member's file or share.
    pub fn of_part(which: DataId, node: u8, part: Part) -> DeviceName
        ensures name { result ≡ part_name which node part }
        ensures short { IsDeviceName result }
    {
        let mut name = DeviceName::stem(which, node);
        match part {
            Part::File { local, file } => {
                name.push(".f.");
                name.push_number(local as u32);
                name.push(".");
                name.push_number(file as u32);
            }
            Part::Share { local } => {
                name.push(".p.");
                name.push_number(local as u32);
            }
        }
        name
    }

    pub fn bytes(&self) -> &[u8]
        ensures { result.now ≡ self.now }
    {
        self.text.as_str().as_bytes()
    }
}
