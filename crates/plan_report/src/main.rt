//! The sample report: judges a plan text for the sample task pick-go-drop and prints the report.

#![tactic(auto)]

use fdr::tasks::admitting::admit;
use report::writing::report_plan;
use samples::pick_go_drop;
use std::io;
use std::io::{Read, Write};

fn main(rt: HostRuntime) -> io::Result<()> {
    let mut text = Vec::new(rt.alloc());
    rt.stdin().read_to_end(&mut text)?;
    let Ok(task) = admit(pick_go_drop()) else {
        return rt.println("the sample task was refused");
    };
    let report = report_plan(rt.alloc(), &task, text.as_slice())?;
    rt.stdout().write_all(report.as_slice())
}

#[cfg(test)]
mod tests {
    use super::*;
    use std::test::Fail;

    // A plan text and its report, made by hand from the sample task.
    const REPORTS: [(&'static [u8], &'static [u8]); 26] = [
        (
            b"; try\n(pick)\n(drop)\n",
            b"1 pick\nfault 14 line 3 step 2 item 1\n",
        ),
        (b"(pick)\n(go)\n(drop)\n", b"1 pick\n2 go\n3 drop\nplan 3\n"),
        (b"(pick)\n(go)\n(drop)", b"1 pick\n2 go\n3 drop\nplan 3\n"),
        (b"(leap)\n(leap)\n", b"1 leap\n2 leap\nplan 2\n"),
        (b"(pick)\n(go)\n", b"1 pick\n2 go\nopen 2 goal 1\n"),
        (b"", b"open 0 goal 1\n"),
        (b"\n", b"open 0 goal 1\n"),
        (b"\n; a comment\n\n(go)", b"1 go\nopen 1 goal 1\n"),
        (b"(go)\n\n(go)\n", b"1 go\nfault 14 line 3 step 2 item 1\n"),
        (b"(go)\n(pick)\n", b"1 go\nfault 14 line 2 step 2 item 1\n"),
        (
            b"(pick)\n(pick)\n",
            b"1 pick\nfault 14 line 2 step 2 item 2\n",
        ),
        (b"(odd)\n", b"fault 14 line 1 step 1 item 1\n"),
        (b"(fly)\n", b"fault 8 line 1 step 1 item 1\n"),
        (
            b"(go)\n(go pick)\n",
            b"1 go\nfault 8 line 2 step 2 item 1\n",
        ),
        (b"   \n", b"fault 7 line 1 step 1 item 0\n"),
        (b"(go)\r\n", b"fault 7 line 1 step 1 item 0\n"),
        (b" ;\n", b"fault 7 line 1 step 1 item 0\n"),
        (b"(go)\n()\n", b"1 go\nfault 7 line 2 step 2 item 0\n"),
        (b"go\n", b"fault 7 line 1 step 1 item 0\n"),
        (b"(go\n", b"fault 7 line 1 step 1 item 0\n"),
        (b"go)\n", b"fault 7 line 1 step 1 item 0\n"),
        (b"( go)\n", b"fault 7 line 1 step 1 item 0\n"),
        (b"(go )\n", b"fault 7 line 1 step 1 item 0\n"),
        (b"(go  go)\n", b"fault 7 line 1 step 1 item 0\n"),
        (b"(g(o)\n", b"fault 7 line 1 step 1 item 0\n"),
        (
            b"(a a a a a a a a a a a a a a a a a a a a a a a a a a a a a a a a a)\n",
            b"fault 7 line 1 step 1 item 0\n",
        ),
    ];

    #[test]
    fn reports_of_short_texts(rt: HostRuntime) -> Result<(), Fail> {
        let Ok(task) = admit(pick_go_drop()) else {
            return Err(Fail::new("the sample task was refused"));
        };
        for case in &REPORTS {
            let report = report_plan(rt.alloc(), &task, case.0)?;
            assert_eq!(rt; report.as_slice(), case.1);
        }
        Ok(())
    }

    // The report of a text that repeats one line, and behind it an end.
    fn repeated(rt: &HostRuntime, line: &[u8], times: usize, end: &[u8]) -> Result<Vec<u8>, Fail> {
        let mut text = Vec::new(rt.alloc());
        for _ in 0..times {
            text.extend_from_slice(line)?;
        }
        text.extend_from_slice(end)?;
        let Ok(task) = admit(pick_go_drop()) else {
            return Err(Fail::new("the sample task was refused"));
        };
        Ok(report_plan(rt.alloc(), &task, text.as_slice())?)
    }

    #[test]
    fn steps_and_bytes_at_their_limits(rt: HostRuntime) -> Result<(), Fail> {
        let full = repeated(&rt, b"(leap)\n", 257, b"")?;
        assert!(rt;
            full.as_slice().ends_with(b"255 leap\n256 leap\nfault 10 line 257 step 257 item 256\n")
        );
        let fits = repeated(&rt, b"(leap)\n", 256, b"; the end")?;
        assert!(rt; fits.as_slice().ends_with(b"255 leap\n256 leap\nplan 256\n"));
        let unknown = repeated(&rt, b"(leap)\n", 256, b"(fly)")?;
        assert!(rt;
            unknown
                .as_slice()
                .ends_with(b"256 leap\nfault 8 line 257 step 257 item 1\n")
        );
        let long = repeated(&rt, b";", 65_537, b"")?;
        assert_eq!(rt; long.as_slice(), b"fault 6 line 0 step 0 item 0\n" as &[u8]);
        let longest = repeated(&rt, b";", 65_536, b"")?;
        assert_eq!(rt; longest.as_slice(), b"open 0 goal 1\n" as &[u8]);
        Ok(())
    }
}
