// Reports, worked out from the rules: what is admitted, and what is not with its one line.
use crate::listing::report_on;
use std::alloc::Global;
use std::test::Fail;

// Whether an input is run and listed so.
fn runs(heap: Global, text: &[u8], listing: &str) -> Result<bool, Fail> {
    let Ok(report) = report_on(heap, text) else {
        return Ok(false);
    };
    let found = format!(in heap; "{report}")?;
    Ok(found.as_str() == listing)
}

// Whether an input is denied so.
fn denies(heap: Global, text: &[u8], reason: &str) -> Result<bool, Fail> {
    let Err(denied) = report_on(heap, text) else {
        return Ok(false);
    };
    let found = format!(in heap; "{denied}\n")?;
    Ok(found.as_str() == reason)
}

#[test]
fn inputs_that_run(rt: HostRuntime) -> Result<(), Fail> {
    let heap = rt.alloc();
    assert!(rt;
        runs(
            heap,
            b"1 2\n0\n4294967295\na0=5 r0\n",
            "1 done\n2 read 4 1\nend 4\n",
        )?
    );
    assert!(rt; runs(heap, b"3 1\n0 0 0\n9 2 3\nm0\n", "1 mean 3\nend 9 2 3\n")?);
    assert!(rt; runs(heap, b"1 0\n0\n7\n\n", "end 7\n")?);
    Ok(())
}

#[test]
fn entries_that_are_bad(rt: HostRuntime) -> Result<(), Fail> {
    let heap = rt.alloc();
    assert!(rt; denies(heap, b"", "bad line 1 entry 1\n")?);
    assert!(rt; denies(heap, b"0 1\n0\n0\nr0\n", "bad line 1 entry 1\n")?);
    assert!(rt; denies(heap, b"1 01\n0\n0\nr0\n", "bad line 1 entry 2\n")?);
    assert!(rt; denies(heap, b"2 1\n0\n0 0\nr0\n", "bad line 2 entry 2\n")?);
    assert!(rt; denies(heap, b"1 1\n0\n0 \nr0\n", "bad line 3 entry 2\n")?);
    assert!(rt; denies(heap, b"1 1\n0\n0\nr1\n", "bad line 4 entry 1\n")?);
    assert!(rt; denies(heap, b"1 2\n0\n0\nr0 s0\n", "bad line 4 entry 2\n")?);
    assert!(rt; denies(heap, b"1 1\n0\n0\nr0", "bad line 4 entry 1\n")?);
    assert!(rt; denies(heap, b"1 1\n0\n0\nr0\n\n", "bad line 5 entry 1\n")?);
    Ok(())
}

#[test]
fn tables_that_are_refused(rt: HostRuntime) -> Result<(), Fail> {
    let heap = rt.alloc();
    assert!(rt; denies(heap, b"2 0\n0 1\n0 0\n\n", "refused 11\n")?);
    assert!(rt;
        denies(
            heap,
            b"9 0\n0 0 1 2 3 4 5 6 7\n0 0 0 0 0 0 0 0 0\n\n",
            "refused 12\n",
        )?
    );
    Ok(())
}
