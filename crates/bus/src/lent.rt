//! A bus that is lent is a bus, so that layers can borrow one.
use crate::Bus;
use crate::levels::Levels;

impl<B: Bus> Bus for &mut B {
    ghost drives = { λ s l a t. B.Bus.drives s.now l a t.now };

    fn drive(&mut self, levels: Levels) -> bool {
        (**self).drive(levels)
    }
}
