//! Variables that words expand by.

use hushlang::{OneVariable, Vars};

/// One variable more.
#[derive(Drop)]
pub(crate) struct With<'a, V: Vars + Drop> {
    pub(crate) name: &'a [u8],
    pub(crate) value: &'a [u8],
    pub(crate) others: V,
}

impl<V: Vars + Drop> Vars for With<'_, V> {
    ghost use Rattle.hushlang.specs.Expansion.{with_variable};

    ghost parameters = { λ with.
        with_variable (V.parameters with.others) with.name.now with.value.now };

    fn get(&self, name: &[u8]) -> Option<&[u8]> {
        if name.cmp(&self.name).is_eq() {
            Some(self.value)
        } else {
            self.others.get(name)
        }
    }

    fn status(&self) -> u8 {
        self.others.status()
    }
}
