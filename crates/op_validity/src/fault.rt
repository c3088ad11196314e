/// Why an operation doesn't apply to a document.
#[derive(Clone, Copy, Debug, PartialEq, Eq)]
pub enum CheckFault {
    /// The index of the first component that breaks the rules of structure, or the number of components where an element is
    /// still open at the end.
    NotStructured(u64),
    /// The index of the first item that doesn't agree with the operation.
    Mismatch(u64),
    /// All common items agree, and the operation is over more or fewer items than the document has.
    WrongLength,
    /// Want of memory.
    Memory,
}

impl From<doc_items::Memory> for CheckFault {
    ghost use Rattle.std.specs.Prelude.{◌≡◌};
    ghost use Rattle.op_validity.specs.declared.fault.CheckFault.TheVariants.{Memory};

    ghost from_gives = { λ _ e. e ≡ Memory };

    fn from(_: doc_items::Memory) -> Self {
        CheckFault::Memory
    }
}
