use crate::blocks::Block;
use crate::streams::{Next, Probes, Stop};

impl<P: Probes> Probes for &mut P {
    ghost use Rattle.std.specs.Prelude.{◌∷◌};

    ghost progress = { λ r. P.progress r.now };

    ghost left = { λ r. P.left r.now };

    ghost faults = { λ r. P.faults r.now };

    ghost has_origin = { λ r bytes. P.has_origin r.now bytes };

    ghost leaves_open = { λ r bytes. P.leaves_open r.now bytes };

    ghost lent = { λ r. r.ghost_name ∷ P.lent r.now };

    fn is_over(&self) -> bool {
        (**self).is_over()
    }

    fn next(&mut self) -> Next {
        (**self).next()
    }

    fn fill(&mut self, block: &mut Block) -> Stop {
        (**self).fill(block)
    }
}
