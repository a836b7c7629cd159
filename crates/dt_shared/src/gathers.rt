//! Making the passes of a shared record, and giving them back.
ghost use Rattle.std.specs.Prelude.{◌≡◌, ◌<◌, All, IfOk, vec_len};
ghost use Rattle.dt_shared.specs.Views.{newcomer};
ghost use Rattle.dt_shared.specs.Turns.{IsSized, Rests};
ghost use Rattle.dt_shared.specs.Passes.{AreNumbered};
ghost use Rattle.dt_shared.specs.Gathers.{Gathered};

use crate::law::{Board, GiveBack, Make, Place};
use crate::passes::Pass;
use std::alloc::{AllocError, Global};

/// Cuts the passes from the seat of the first, which is pass 0.
pub(crate) fn cut_passes(
    alloc: Global,
    board: &Board,
    mut first: Place,
    passes: u8,
) -> Result<Vec<Pass>, AllocError>
    requires table { (first.table_id ≡ board.now.table_id) × IsSized board.now.table_id }
    requires key { board.now.key ≡ passes }
    requires first { Rests (newcomer 0) 1 first.me }
    requires some { 0 < passes }
    ensures { IfOk result (λ cut. AreNumbered board.now.table_id passes cut.items) }
{
    let mut cut = Vec::with_capacity(alloc, usize::from(passes))?;
    for number in 1..passes {
        let seat = board.split_seat::<Make>(&mut first);
        cut.push_reserved(Pass { number, seat });
    }
    cut.insert(
        0,
        Pass {
            number: 0,
            seat: first,
        },
    )?;
    Ok(cut)
}

/// Joins all passes into one seat.
pub(crate) fn gather(board: &Board, mut passes: Vec<Pass>) -> Place
    requires table { IsSized board.now.table_id }
    requires own { All (λ p. p.of ≡ board.now.table_id) passes.items }
    requires some { 0 < vec_len passes }
    ensures table { result.table_id ≡ board.now.table_id }
    ensures all { Gathered board.now.table_id passes.items result.me }
{
    let Some(last) = passes.pop() else {
        unreachable!()
    };
    let mut seat = last.into_seat();
    while let Some(pass) = passes.pop() {
        board.join_seat::<GiveBack>(&mut seat, pass.into_seat());
    }
    seat
}
