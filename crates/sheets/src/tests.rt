//! What the stored sheets do not show: tables of other sizes, the order of a report's refusals, the other verdicts.
use search::verdict::Verdict;
use sheet::actions::action_name;
use sheet::counts::Counts;
use sheet::fault::Fault;
use sheet::read::read;
use sheet::refusal::Refusal;
use sheet::refused::write_refusal;
use sheet::report::report;
use std::test::Fail;

const SWITCH: &[u8] =
    b"job 2 2 9\nfact lit\nfact warm\nact on\nact off\nbodies\nstart 2\ngoal 1\nneeds -1\nmakes 1\nneeds 1\nmakes -1\n";

#[test]
fn a_short_table_is_refused_and_nothing_written(rt: HostRuntime) {
    let mut needs = [7i8; 8191];
    let mut makes = [7i8; 8192];
    let mut start = [7i8; 64];
    let mut goal = [7i8; 64];
    let answer = read(SWITCH, &mut needs, &mut makes, &mut start, &mut goal);
    assert_eq!(rt;
        answer,
        Err(Refusal {
            fault: Fault::TableTooShort,
            line: 0,
        })
    );
    assert_eq!(rt; start[0], 7);
    assert_eq!(rt; makes[0], 7);
}

#[test]
fn cells_past_the_counts_become_zero_and_later_ones_stay(rt: HostRuntime) {
    let mut needs = [7i8; 8193];
    let mut makes = [7i8; 8193];
    let mut start = [7i8; 65];
    let mut goal = [7i8; 65];
    let answer = read(SWITCH, &mut needs, &mut makes, &mut start, &mut goal);
    assert_eq!(rt;
        answer,
        Ok(Counts {
            facts: 2,
            actions: 2,
            bound: 9,
        })
    );
    assert_eq!(rt; needs[2], 1);
    assert_eq!(rt; needs[4], 0);
    assert_eq!(rt; needs[8191], 0);
    assert_eq!(rt; needs[8192], 7);
    assert_eq!(rt; start[0], -1);
    assert_eq!(rt; start[1], 1);
    assert_eq!(rt; start[2], 0);
    assert_eq!(rt; start[64], 7);
}

#[test]
fn a_report_is_refused_in_this_order(rt: HostRuntime) {
    let mut small = [7u8; 799];
    let mut buffer = [7u8; 800];
    assert_eq!(rt;
        report(b"", Verdict::Blank, b"", &mut small),
        Err(Fault::Blank)
    );
    assert_eq!(rt;
        report(b"", Verdict::Unfinished, b"", &mut small),
        Err(Fault::BufferTooShort)
    );
    assert_eq!(rt;
        report(b"", Verdict::Unfinished, b"", &mut buffer),
        Err(Fault::Mismatch)
    );
    assert_eq!(rt;
        report(SWITCH, Verdict::Found(1), &[2], &mut buffer),
        Err(Fault::Mismatch)
    );
    assert_eq!(rt;
        report(SWITCH, Verdict::Found(2), &[1], &mut buffer),
        Err(Fault::Mismatch)
    );
    assert_eq!(rt;
        report(SWITCH, Verdict::Found(31), &[0; 31], &mut buffer),
        Err(Fault::Mismatch)
    );
    assert_eq!(rt; buffer[0], 7);
}

#[test]
fn a_verdict_is_written_and_later_bytes_stay(rt: HostRuntime) {
    let mut buffer = [7u8; 800];
    assert_eq!(rt; report(SWITCH, Verdict::None(30), b"", &mut buffer), Ok(8));
    assert!(rt; &buffer[0..10] == b"none 30\n\x07\x07".as_slice());
    assert_eq!(rt;
        report(SWITCH, Verdict::Unfinished, b"", &mut buffer),
        Ok(11)
    );
    assert!(rt; &buffer[0..12] == b"unfinished\n\x07".as_slice());
    assert_eq!(rt;
        report(SWITCH, Verdict::Found(2), &[1, 0, 9], &mut buffer),
        Ok(15)
    );
    assert!(rt; &buffer[0..16] == b"found 2\noff\non\n\x07".as_slice());
}

#[test]
fn a_refusal_is_written_with_its_line(rt: HostRuntime) {
    let mut buffer = [7u8; 800];
    assert_eq!(rt;
        write_refusal(
            Refusal {
                fault: Fault::Twice,
                line: 120,
            },
            &mut buffer,
        ),
        Ok(19)
    );
    assert!(rt; &buffer[0..20] == b"refused 7 line 120\n\x07".as_slice());
    let mut small = [7u8; 799];
    assert_eq!(rt;
        write_refusal(
            Refusal {
                fault: Fault::Form,
                line: 1,
            },
            &mut small,
        ),
        Err(Fault::BufferTooShort)
    );
}

#[test]
fn an_action_has_its_name(rt: HostRuntime) -> Result<(), Fail> {
    assert!(rt; action_name(SWITCH, 1)? == b"off".as_slice());
    assert_eq!(rt; action_name(SWITCH, 2), Err(Fault::Mismatch));
    Ok(())
}
