//! What a ledger holds.
ghost use Rattle.std.specs.Prelude.{◌≡◌, ◌+◌, ◌≤◌, length};
ghost use Rattle.numbered.specs.Rows.{AllBelow};
ghost use Rattle.register.specs.Held.{held, numbers};

use register::table::Register;

/// The fitting (the owner of each hook, 0 for none, and the kept set), the last number given, and the
/// grants on record. No grant has a number above the last one, and at most 1,000,000 are given.
#[derive(Drop)]
pub struct Ledger {
    // stays beside the owners: before the fitting they are 0, which is no hook, and each call reads them alike
    pub(crate) fitted: bool,
    pub(crate) owners: [u8; 32],
    pub(crate) kept: u8,
    pub(crate) last: u32,
    pub(crate) grants: Register,
    ghost hooks: { length owners ≡ 32 },
    ghost spent: { last ≤ 1000000 },
    ghost low: { AllBelow numbers (last + 1) (held grants) },
}
