//! A grant is found by its number.
use crate::Grant;
use numbered::Numbered;

impl Numbered for Grant {
    ghost label = { λ g. g.number };

    fn number(&self) -> u32 {
        self.number
    }
}
