//! What a cabinet is.
use ledger::held::Ledger;
use loans::table::Loans;

/// A condition language, the ledger of grants, and the loans of keys.
#[derive(Drop)]
pub struct Cabinet<L> {
    pub(crate) language: L,
    pub(crate) ledger: Ledger,
    pub(crate) loans: Loans,
}
