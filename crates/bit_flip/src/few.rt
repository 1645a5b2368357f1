// A list of runs with so few edges of each bit that a byte holds its votes: what every pass over bytes rests on.
use runs::EdgeRun;
use std::marker::Model;

#[derive(Drop)]
pub(crate) struct FewRuns<'a> {
    pub(crate) list: &'a [EdgeRun],
}

impl<'a> Model for FewRuns<'a> {
    ghost use Rattle.std.specs.Prelude.{List};
    ghost use Rattle.runs.specs.declared.EdgeRun.{EdgeRun};
    ghost use Rattle.bit_flip.specs.Steps.{FewLaid};

    ghost Value = { List EdgeRun };

    ghost view = { λ r. r.list.now };

    ghost invariant = { λ r. FewLaid r.list.now };
}
