use crate::assignments::least;
use crate::choices::choices;
use crate::runs::{Dice, Run, random_run};
use std::process::Abort;
use std::test::Fail;

/// How the first loads of a run came out: found, and refused.
#[derive(Clone, Copy, Debug)]
struct Outcomes {
    found: u32,
    refused: u32,
}

#[test]
fn choices_are_the_least_assignment(rt: HostRuntime) -> Result<(), Fail> {
    let mut dice = Dice { state: 1 };
    let mut outcomes = Outcomes {
        found: 0,
        refused: 0,
    };
    for number in 0..3000 {
        let run = random_run(rt.alloc(), &mut dice)?;
        let moments = choices(rt.alloc(), &run)?;
        compare(&rt, number, &run, &moments, &mut outcomes);
    }
    assert!(rt;
        outcomes.found > 1000 && outcomes.refused > 300,
        "{outcomes:?}"
    );
    Ok(())
}

/// The choices up to each load are the least moments of all assignments up to there.
fn compare(
    rt: &impl Abort,
    number: u32,
    run: &Run,
    moments: &[Option<u32>],
    outcomes: &mut Outcomes,
) {
    for (i, moment) in moments.iter().take(3).enumerate() {
        let all = least(&run.events, &run.writes, i + 1);
        match moment {
            Some(k) => {
                let here = all.and_then(|all| all.get(i).copied());
                assert_eq!(rt; here, Some(*k as usize), "run {number}, load {i}: {run:?}");
                outcomes.found = outcomes.found.saturating_add(1);
            }
            None => {
                assert!(rt; all.is_none(), "run {number}, load {i}: {run:?}");
                outcomes.refused = outcomes.refused.saturating_add(1);
            }
        }
    }
}
