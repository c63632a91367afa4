//! A pen that writes bytes one behind another, 64 at the most.
ghost use Rattle.std.specs.Prelude.{◌≡◌, ◌<◌, ◌≤◌, [], length};
ghost use Rattle.command_words.specs.Fields.{spell};
ghost use Rattle.command_words.specs.Format.{entry_of, entries};
ghost use Rattle.command_writer.specs.Pens.{puts};

use arrayvec::ArrayVec;
use states::report::Report;
use states::state::{DAY, GROUPS, LEVEL, PATH, STATUS, TIME};

/// The bytes written so far.
#[derive(Drop)]
pub(crate) struct Pen {
    bytes: ArrayVec<u8, 64>,
}

impl Pen {
    /// A pen that has written nothing.
    pub(crate) fn new() -> Pen
        ensures { result.bytes.items ≡ [] }
    {
        Pen {
            bytes: ArrayVec::new(),
        }
    }

    /// What has been written.
    pub(crate) fn written(&self) -> &[u8]
        ensures is { result.now ≡ self.now.bytes.items }
        ensures within { length result.now ≤ 64 }
    {
        self.bytes.as_slice()
    }

    /// Bytes behind those written so far; past the last place nothing is written.
    fn put(&mut self, bytes: &[u8])
        ensures { self.new.bytes.items ≡ puts self.old.bytes.items bytes.now }
    {
        let room = self.bytes.remaining_capacity().min(bytes.len());
        let _ = self.bytes.try_extend_from_slice(&bytes[..room]);
    }

    /// A field: its tag, its length in two bytes, its value.
    pub(crate) fn field(&mut self, tag: u8, value: &[u8])
        requires { length value.now < 65536 }
        ensures { self.new.bytes.items ≡ puts self.old.bytes.items (spell (tag, value.now)) }
    {
        let [hi, lo] = (value.len() as u16).to_be_bytes();
        self.put(&[tag, hi, lo]);
        self.put(value);
    }

    /// The entry of a variable, if it is known.
    fn entry(&mut self, v: u8, value: Option<u16>)
        ensures { self.new.bytes.items ≡ puts self.old.bytes.items (entry_of v value) }
    {
        if let Some(n) = value {
            let [hi, lo] = n.to_be_bytes();
            self.put(&[v, hi, lo]);
        }
    }

    /// The field of a state.
    pub(crate) fn state(&mut self, report: Report)
        ensures { self.new.bytes.items ≡ puts self.old.bytes.items (spell (8, entries report)) }
    {
        let mut told = Pen::new();
        told.entry(TIME, report.time);
        told.entry(DAY, report.day);
        told.entry(GROUPS, report.groups);
        told.entry(PATH, report.path);
        told.entry(LEVEL, report.level);
        told.entry(STATUS, report.status);
        self.field(8, told.written());
    }
}
