use crate::traits::{Failed, Source};

impl<S: Source> Source for &mut S {
    ghost use Rattle.std.specs.Prelude.{◌∷◌};

    ghost left = { λ r. S.left r.now };

    ghost faults = { λ r. S.faults r.now };

    ghost lent = { λ r. r.ghost_name ∷ S.lent r.now };

    fn read(&mut self, buf: &mut [u8]) -> Result<usize, Failed> {
        (**self).read(buf)
    }
}
