// What no clause says: that cheapest tours of worked towns are found, and what is printed of them.
use crate::cases::{CASES, HEADER, PATH, SLOPE};
use crate::run::postman;
use crate::status::Status;
use std::alloc::{AllocError, Global};
use std::test::Fail;
use wrp_out::{SteadySink, SteadySource};

/// The bytes that the sinks of a test have room for.
const ROOM: usize = 65_536;

/// Rows of a table, and the report of a solve of it that may do no node.
const FIRST: [(&str, &str); 3] = [
    (
        "",
        "optimal 0\nstreets 0 junctions 0 required 0 class empty\n\
            nodes 1 done 1 cuts 0 blind 0\nsteps 0\n",
    ),
    (
        SLOPE,
        "unfinished 0 5\nstreets 1 junctions 2 required 1 class windy\n\
            nodes 1 done 0 cuts 0 blind 0\nsteps 2\n\
            0+\te\tA\tB\t2\n0-\te\tB\tA\t3\n",
    ),
    (
        "e,A,B,2,-,yes\n",
        "infeasible\nstreets 1 junctions 2 required 1 class directed\n",
    ),
];

/// What a run answered and wrote.
#[derive(Debug, Drop)]
struct Run {
    status: Status,
    proof: Vec<u8>,
    text: Vec<u8>,
}

/// Room for the proof, and for the text.
#[derive(Clone, Copy)]
struct Room {
    proof: usize,
    text: usize,
}

const AMPLE: Room = Room {
    proof: ROOM,
    text: ROOM,
};

/// A run of these words over these bytes.
fn run_of(
    alloc: Global,
    texts: &[&str],
    table: &[u8],
    proof: &[u8],
    room: Room,
) -> Result<Run, AllocError> {
    let mut words = Vec::new(alloc);
    for text in texts {
        words.push(String::from_str(alloc, text)?)?;
    }
    let mut streets = SteadySource::new(alloc, table)?;
    let mut proof_in = SteadySource::new(alloc, proof)?;
    let mut proof_out = SteadySink::new(alloc, room.proof)?;
    let mut out = SteadySink::new(alloc, room.text)?;
    let status = postman(
        alloc,
        &words,
        &mut streets,
        &mut proof_in,
        &mut proof_out,
        &mut out,
    );
    Ok(Run {
        status,
        proof: Vec::from_slice(alloc, proof_out.bytes())?,
        text: Vec::from_slice(alloc, out.bytes())?,
    })
}

/// A solve of these bytes.
fn solve(alloc: Global, table: &[u8], budget: &str, room: Room) -> Result<Run, AllocError> {
    let words = ["solve", "streets.csv", "proof.txt", "-", budget];
    run_of(alloc, words.as_slice(), table, b"", room)
}

/// What a check of a proof of these bytes prints.
fn check(alloc: Global, table: &[u8], proof: &[u8]) -> Result<Vec<u8>, AllocError> {
    let words = ["check", "streets.csv", "proof.txt"];
    Ok(run_of(alloc, words.as_slice(), table, proof, AMPLE)?.text)
}

#[test]
fn finds_first_tours(rt: HostRuntime) -> Result<(), Fail> {
    let alloc = rt.alloc();
    for (rows, report) in &FIRST {
        let table = format!(in alloc; "{HEADER}{rows}")?;
        let run = solve(alloc, table.as_bytes(), "0", AMPLE)?;
        assert_eq!(rt; run.text.as_slice(), report.as_bytes(), "{rows}");
    }
    Ok(())
}

/// Whether a text has this part.
fn has(text: &[u8], part: &[u8; 9]) -> bool {
    text.windows(9).any(|piece| piece == part.as_slice())
}

#[test]
fn finds_the_cheapest_tours(rt: HostRuntime) -> Result<(), Fail> {
    let alloc = rt.alloc();
    for (rows, _, text) in &CASES {
        let Some(end) = text.strip_prefix("accepted ") else {
            continue;
        };
        if end.starts_with("unfinished") {
            continue;
        }
        let table = format!(in alloc; "{HEADER}{rows}")?;
        let run = solve(alloc, table.as_bytes(), "1000", AMPLE)?;
        let line = format!(in alloc; "{end}\n")?;
        assert!(rt; run.text.starts_with(line.as_bytes()), "{rows}");
        assert!(rt;
            end == "infeasible" || has(&run.text, b" blind 0\n"),
            "{rows}"
        );
        let accepted = format!(in alloc; "accepted {line}")?;
        assert_eq!(rt;
            check(alloc, table.as_bytes(), &run.proof)?.as_slice(),
            accepted.as_bytes(),
            "{rows}"
        );
    }
    Ok(())
}

#[test]
fn tells_what_was_found(rt: HostRuntime) -> Result<(), Fail> {
    let alloc = rt.alloc();
    let table = format!(in alloc; "{HEADER}l,A,A,7,-,yes\n")?;
    let run = solve(alloc, table.as_bytes(), "1000", AMPLE)?;
    assert!(rt; run.text.ends_with(b"blind 0\nsteps 1\n0+\tl\tA\tA\t7\n"));
    let words = ["demo", "1", "2", "1", "512"];
    let run = run_of(alloc, words.as_slice(), b"", b"", AMPLE)?;
    assert_eq!(rt; run.status, Status::Optimal { cost: 17 });
    assert!(rt;
        run.text.starts_with(b"optimal 17\nstreets 1 junctions 2 required 1 class windy\nnodes ")
    );
    assert!(rt; run.text.ends_with(b" blind 0\n"));
    assert!(rt; run.proof.is_empty());
    Ok(())
}

/// A ring of 500 junctions, each joined to the next by two streets.
fn ring(alloc: Global) -> Result<String, AllocError> {
    let mut table = String::from_str(alloc, HEADER)?;
    for street in 0..1000u32 {
        let from = street % 500;
        let to = (street + 1) % 500;
        table.push_str(format!(in alloc; "s{street},x{from},x{to},1,1,yes\n")?.as_str())?;
    }
    Ok(table)
}

#[test]
fn finds_a_tour_of_a_ring(rt: HostRuntime) -> Result<(), Fail> {
    let alloc = rt.alloc();
    let table = ring(alloc)?;
    let run = solve(alloc, table.as_bytes(), "0", AMPLE)?;
    assert_eq!(rt; run.status.code(), 1);
    assert!(rt; check(alloc, table.as_bytes(), &run.proof)?.starts_with(b"accepted unfinished 0 "));
    Ok(())
}

#[test]
fn stops_where_a_sink_is_full(rt: HostRuntime) -> Result<(), Fail> {
    let alloc = rt.alloc();
    let table = format!(in alloc; "{HEADER}{SLOPE}")?;
    let run = solve(
        alloc,
        table.as_bytes(),
        "0",
        Room {
            proof: 10,
            text: ROOM,
        },
    )?;
    assert_eq!(rt; run.status, Status::WriteFault);
    assert_eq!(rt; run.proof.as_slice(), b"postman-pr".as_slice());
    assert!(rt; run.text.is_empty());
    let run = solve(
        alloc,
        table.as_bytes(),
        "0",
        Room {
            proof: ROOM,
            text: 0,
        },
    )?;
    assert_eq!(rt; run.status, Status::WriteFault);
    assert_eq!(rt;
        run.proof.as_slice(),
        b"postman-proof 2\nt 5 0+ 0-\nend unfinished 0 5\n".as_slice()
    );
    Ok(())
}

#[test]
fn tells_of_towns(rt: HostRuntime) -> Result<(), Fail> {
    let alloc = rt.alloc();
    let table = format!(in alloc; "{HEADER}{PATH}")?;
    let words = ["info", "streets.csv"];
    let run = run_of(alloc, words.as_slice(), table.as_bytes(), b"", AMPLE)?;
    assert_eq!(rt; run.status, Status::Done);
    assert_eq!(rt;
        run.text.as_slice(),
        b"streets 3 junctions 4 required 2 class rural\none-way 0 two-way 3 closed 0\nparts 2\n\
            tour yes\n"
            .as_slice()
    );
    let run = run_of(alloc, words.as_slice(), b"", b"", AMPLE)?;
    assert_eq!(rt; run.text.as_slice(), b"table Header\n".as_slice());
    let words = ["town", "1", "2", "1"];
    let run = run_of(alloc, words.as_slice(), b"", b"", AMPLE)?;
    assert_eq!(rt; run.status, Status::Done);
    assert_eq!(rt;
        run.text.as_slice(),
        b"street,from,to,forward,backward,need\ne0.0,0.0,1.0,9,8,yes\n".as_slice()
    );
    Ok(())
}

#[test]
fn takes_no_other_words(rt: HostRuntime) -> Result<(), Fail> {
    let alloc = rt.alloc();
    for line in [
        "solve a b c",
        "solve a b - 01",
        "solve a b - 1000000000000000000",
        "solve a b c 0",
        "solve a a - 0",
        "solve - b - 0",
        "town 1 21 1",
        "town 1 0 1",
        "town 01 2 1",
        "town 2147483648 1 1",
        "demo 1 2 1",
        "demo 1 21 1 0",
        "demo 1 2 1 007",
        "info",
    ] {
        let texts: Vec<&str> = line.split(' ').collect(alloc)?;
        let run = run_of(alloc, texts.as_slice(), b"", b"", AMPLE)?;
        assert_eq!(rt; run.status, Status::Usage, "{line}");
    }
    Ok(())
}
