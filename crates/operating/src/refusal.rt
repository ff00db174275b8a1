//! Why an engine refused, and where the fault stands.

ghost use Rattle.std.specs.Prelude.{◌≡◌, None, Some};
ghost use Rattle.commands.specs.declared.fault.Fault.TheVariants as fault;
ghost use Rattle.commands.specs.Refusals.{of_import};

pub use answers::TextForm;
use commands::fault::Fault;
use containers::ImportFault;
use log_chain::FieldReader;

/// A refusal: the fault, with its number and its name, and the place of the fault.
#[derive(Clone, Copy, Debug, PartialEq, Eq)]
pub struct Refusal {
    /// What is wrong.
    pub fault: Fault,
    /// The number of the file that has the fault; `None` if it is in no file.
    pub file: Option<usize>,
    /// How many items of the file stand before the fault; `None` if it is at no item.
    pub item: Option<u64>,
    /// How many bytes of the file's text stand before the length of that item. `None` if the fault is at no item, or if there is no such
    /// item.
    pub byte: Option<u64>,
    /// What the file is, if it was read.
    pub form: TextForm,
}

/// Returns how many bytes stand behind the first `items` items of a text.
fn left_behind(mut reader: FieldReader<'_>, items: u64) -> Option<usize> {
    for _ in 0..items {
        let Ok(len) = reader.u32() else {
            return None;
        };
        if reader.take(len as usize).is_err() {
            return None;
        }
    }
    Some(reader.left())
}

/// How far a store's text was read.
#[derive(Clone, Copy, Debug)]
pub(crate) struct Far {
    /// How many bytes the text has.
    pub(crate) len: u64,
    /// What it is.
    form: TextForm,
    /// How many items were read.
    items: u64,
    /// How many bytes stand behind them.
    left: u64,
}

impl Far {
    /// Returns the value for a text of which nothing was read.
    pub(crate) fn none(text: &[u8]) -> Far {
        let len = text.len() as u64;
        Far {
            len,
            form: TextForm::known(text),
            items: 0,
            left: len,
        }
    }

    /// Notes that this many items were read, and that this many bytes stand behind them.
    pub(crate) fn note(&mut self, items: u64, left: u64) {
        self.items = items;
        self.left = left;
    }

    /// Returns how many bytes of the text stand before the length of the item behind `item` others. `rest` is what is left of the text.
    fn byte_of(&self, rest: &[u8], item: u64) -> Option<u64> {
        let read = (rest.len() as u64).saturating_sub(self.left);
        let mut reader = FieldReader::new(rest);
        if reader.take(read as usize).is_err() {
            return None;
        }
        if self.items == 0 && reader.take(16).is_err() {
            return None;
        }
        let left = left_behind(reader, item.saturating_sub(self.items))?;
        Some(self.len.saturating_sub(left as u64))
    }
}

impl Refusal {
    /// Returns the refusal for a fault that is in no file.
    pub fn of_none(fault: Fault) -> Refusal
        ensures { (result.fault ≡ fault) × (result.file ≡ None) × (result.item ≡ None) }
    {
        Refusal {
            fault,
            file: None,
            item: None,
            byte: None,
            form: TextForm::Unknown,
        }
    }

    /// Returns the refusal for an answer that could not be written: `WriteFailed` (102).
    pub fn of_writing() -> Refusal
        ensures { (result.fault ≡ fault.WriteFailed) × (result.file ≡ None) × (result.item ≡ None) }
    {
        Refusal::of_none(Fault::WriteFailed)
    }

    /// Returns the refusal for a fault of a file that was not read.
    pub(crate) fn of_file(file: usize, fault: Fault) -> Refusal
        ensures { (result.fault ≡ fault) × (result.file ≡ Some file) × (result.item ≡ None) }
    {
        Refusal {
            fault,
            file: Some(file),
            item: None,
            byte: None,
            form: TextForm::Unknown,
        }
    }

    /// Returns the refusal for a fault of a file's text.
    pub fn of_text(file: usize, text: &[u8], fault: Fault) -> Refusal
        ensures { (result.fault ≡ fault) × (result.file ≡ Some file) × (result.item ≡ None) }
    {
        Refusal {
            fault,
            file: Some(file),
            item: None,
            byte: None,
            form: TextForm::known(text),
        }
    }

    /// Returns the refusal for a fault of a store's encoding that was read so far, and of which `rest` is left.
    pub(crate) fn of_reading(file: usize, far: &Far, rest: &[u8], fault: ImportFault) -> Refusal
        ensures { (result.fault ≡ of_import fault) × (result.file ≡ Some file) × (result.item ≡ Some fault.item) }
    {
        Refusal {
            fault: Fault::from(fault),
            file: Some(file),
            item: Some(fault.item),
            byte: far.byte_of(rest, fault.item),
            form: far.form,
        }
    }

    /// Returns the refusal for a fault of a store's encoding.
    pub(crate) fn of_import(file: usize, text: &[u8], fault: ImportFault) -> Refusal
        ensures { (result.fault ≡ of_import fault) × (result.file ≡ Some file) × (result.item ≡ Some fault.item) }
    {
        Refusal::of_reading(file, &Far::none(text), text, fault)
    }
}
