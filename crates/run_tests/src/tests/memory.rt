//! Failed allocations. If every allocation succeeds, a batch returns its whole report. The toolchain's option
//! `--fail-alloc` lets one allocation fail. The first allocations make the arguments of the call. If one of
//! the later ones fails, the batch returns an error, or a setter abandons its lane: the report then has the
//! first results of this lane, and all results of the other lanes. It is proved that they are those of the first
//! lines of each source. The text that is printed states which case it was.
use super::runs::three_sources;
use batch::{NoGate, RunFault};
use batch_support::plan;
use lanes::LaneEnd;
use set_run::run;
use std::test::Fail;

#[test]
fn a_refused_request_of_a_run(rt: HostRuntime) -> Result<(), Fail> {
    let Some(sources) = three_sources(rt.alloc()) else {
        return Ok(println!(rt; "refused before the run")?);
    };
    let report = match run(&rt, rt.alloc(), sources, plan(1, 1, 2)?, &NoGate) {
        Ok(report) => report,
        Err(RunFault::OutOfMemory) => return Ok(println!(rt; "out of memory")?),
        Err(RunFault::Thread) => return Ok(println!(rt; "a thread was refused")?),
        Err(RunFault::TooManySources) => panic!(&rt; "too many sources"),
    };
    assert_eq!(&rt; report.lanes().len(), 3);
    let mut abandoned = 0u32;
    for (lane, all) in report.lanes().iter().zip([0, 1, 100]) {
        let count = lane.answers.as_slice().len();
        match lane.end {
            LaneEnd::Complete => assert_eq!(&rt; count, all),
            LaneEnd::GaveUp => {
                assert!(&rt; count <= all);
                abandoned = abandoned.wrapping_add(1);
            }
            LaneEnd::SourceFailed(_) => panic!(&rt; "a source failed"),
        }
    }
    match abandoned {
        0 => println!(rt; "finished")?,
        1 => println!(rt; "one lane was given up")?,
        _ => panic!(&rt; "more than one lane was given up"),
    }
    Ok(())
}
