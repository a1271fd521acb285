// What no clause says: that whole runs over worked towns print what their author means, wherever a
// read or a write ends.
ghost use Rattle.wrp_out.specs.Faulty.{input_of};

use crate::cases::{CASES, HEADER, SLOPE, TRIANGLE};
use crate::run::postman;
use crate::status::Status;
use std::alloc::{AllocError, Global};
use std::test::Fail;
use wrp_out::{Failed, MemSink, MemSource, Sink, Source, SteadySink, SteadySource};
use wrp_proof::{End, Rule};

/// The bytes that the sink of a test has room for.
const ROOM: usize = 512;

/// The bytes that a table may have, and a line of a proof of version 1.
const TABLE_BYTES: usize = 1 << 22;

const LINE_BYTES: usize = 1 << 24;

/// The words of a check, and one word more.
const WORDS: [&str; 4] = ["check", "streets.csv", "proof.txt", "more"];

const USAGE: &str = "usage: solve STREETS PROOF LOG BUDGET | resume STREETS PROOF LOG BUDGET \
    | check STREETS PROOF | info STREETS | town SEED W H | demo SEED W H BUDGET \
    | expand STREETS STOPS | visit STREETS STOPS PROOF LOG BUDGET | unfold STREETS BANS \
    | turns STREETS BANS PROOF LOG BUDGET\n";

const PROOF: &str = "postman-proof 2\nt 12 0+ 1+ 2+\nb 0 1 3:3 4:4 5:5\nend optimal 12\n";

/// Gives few bytes at each read: so many at the first, and so many more each time.
#[derive(Debug, Drop)]
struct Pieces {
    whole: MemSource,
    size: usize,
    more: usize,
}

impl Source for Pieces {
    ghost input = { λ s. input_of s.whole };

    fn read(&mut self, into: &mut [u8]) -> Result<usize, Failed> {
        let room = into.len().min(self.size.max(1));
        self.size = self.size.saturating_add(self.more);
        self.whole.read(&mut into[..room])
    }
}

/// A source of these bytes: one at first, and so many more each time. This read of it fails.
fn in_pieces(alloc: Global, bytes: &[u8], more: usize, fail: u64) -> Result<Pieces, AllocError> {
    Ok(Pieces {
        whole: MemSource::new(alloc, bytes, &[fail])?,
        size: 1,
        more,
    })
}

/// The status of a run of these words.
fn status_of<S: Source, P: Source, O: Sink>(
    alloc: Global,
    texts: &[&str],
    streets: &mut S,
    proof: &mut P,
    out: &mut O,
) -> Result<Status, AllocError> {
    let mut words = Vec::new(alloc);
    for text in texts {
        words.push(String::from_str(alloc, text)?)?;
    }
    let mut unused = SteadySink::new(alloc, 0)?;
    Ok(postman(alloc, &words, streets, proof, &mut unused, out))
}

/// What a run answered, and the bytes that it wrote.
#[derive(Debug, Drop)]
struct Answer {
    status: Status,
    line: Vec<u8>,
}

/// The answer to these words, with so much room for its line.
fn answer_to<S: Source, P: Source>(
    alloc: Global,
    texts: &[&str],
    streets: &mut S,
    proof: &mut P,
    room: usize,
) -> Result<Answer, AllocError> {
    let mut out = SteadySink::new(alloc, room)?;
    let status = status_of(alloc, texts, streets, proof, &mut out)?;
    Ok(Answer {
        status,
        line: Vec::from_slice(alloc, out.bytes())?,
    })
}

/// The answer of a check of these bytes, with so much room for its line.
fn answer_of(alloc: Global, table: &[u8], proof: &[u8], room: usize) -> Result<Answer, AllocError> {
    let mut streets = SteadySource::new(alloc, table)?;
    let mut proof = SteadySource::new(alloc, proof)?;
    answer_to(alloc, &WORDS[..3], &mut streets, &mut proof, room)
}

/// The answer of a check of these bytes, of which one comes at first, and so many more each time.
fn slow_answer(
    alloc: Global,
    table: &[u8],
    proof: &[u8],
    more: usize,
) -> Result<Answer, AllocError> {
    let mut streets = in_pieces(alloc, table, more, 0)?;
    let mut proof = in_pieces(alloc, proof, more, 0)?;
    answer_to(alloc, &WORDS[..3], &mut streets, &mut proof, ROOM)
}

/// The table of the triangle.
fn triangle(alloc: Global) -> Result<String, AllocError> {
    format!(in alloc; "{HEADER}{TRIANGLE}")
}

#[test]
fn prints_as_worked_however_reads_end(rt: HostRuntime) -> Result<(), Fail> {
    let alloc = rt.alloc();
    for (rows, proof, text) in &CASES {
        let table = format!(in alloc; "{HEADER}{rows}")?;
        let proof = format!(in alloc; "postman-proof {proof}")?;
        let line = format!(in alloc; "{text}\n")?;
        let (table, proof) = (table.as_bytes(), proof.as_bytes());
        let answer = answer_of(alloc, table, proof, ROOM)?;
        assert_eq!(rt; answer.line.as_slice(), line.as_bytes(), "{text}");
        for more in 0..2 {
            let slow = slow_answer(alloc, table, proof, more)?;
            assert_eq!(rt; slow.status, answer.status, "{text}");
            assert_eq!(rt; slow.line, answer.line, "{text}");
        }
    }
    Ok(())
}

#[test]
fn misses_the_rest_of_a_proof(rt: HostRuntime) -> Result<(), Fail> {
    let alloc = rt.alloc();
    let table = triangle(alloc)?;
    let mut number = 1u64;
    for (size, byte) in PROOF.as_bytes().iter().enumerate() {
        let answer = answer_of(alloc, table.as_bytes(), &PROOF.as_bytes()[..size], ROOM)?;
        let line = format!(in alloc; "refused {number} Missing\n")?;
        assert_eq!(rt; answer.line.as_slice(), line.as_bytes(), "{size} bytes");
        if *byte == b'\n' {
            number = number.saturating_add(1);
        }
    }
    assert_eq!(rt; number, 5);
    Ok(())
}

#[test]
fn reads_tables_as_spreadsheets_write_them(rt: HostRuntime) -> Result<(), Fail> {
    let table = b"\xEF\xBB\xBF street ,from,to,forward,backward,need\r\n\
        \"Main St, north\", A ,B\t,3,3,yes\r\nbc,B,C, 4 ,4,yes\r\nca,C,A,5,5, yes\r\n";
    let answer = answer_of(rt.alloc(), table, PROOF.as_bytes(), ROOM)?;
    assert_eq!(rt; answer.line.as_slice(), b"accepted optimal 12\n".as_slice());
    let answer = answer_of(rt.alloc(), b"", PROOF.as_bytes(), ROOM)?;
    assert_eq!(rt; answer.line.as_slice(), b"table Header\n".as_slice());
    Ok(())
}

/// The line of a check of a table of so many bytes.
fn line_of_table(alloc: Global, size: usize) -> Result<Vec<u8>, AllocError> {
    let table = vec![in alloc; b'a'; size]?;
    Ok(answer_of(alloc, &table, b"", ROOM)?.line)
}

/// The line of a check of a proof with a line of so many bytes.
fn line_of_line(alloc: Global, size: usize) -> Result<Vec<u8>, AllocError> {
    let mut proof = Vec::from_slice(alloc, b"postman-proof 1\n")?;
    proof.extend_from_slice(&vec![in alloc; b'x'; size]?)?;
    proof.push(b'\n')?;
    Ok(answer_of(alloc, triangle(alloc)?.as_bytes(), &proof, ROOM)?.line)
}

#[test]
fn takes_tables_and_lines_of_their_limits(rt: HostRuntime) -> Result<(), Fail> {
    let alloc = rt.alloc();
    for (line, text) in [
        (line_of_table(alloc, TABLE_BYTES)?, "table Header\n"),
        (line_of_table(alloc, TABLE_BYTES + 1)?, "too long\n"),
        (line_of_line(alloc, LINE_BYTES)?, "refused 2 Form\n"),
        (line_of_line(alloc, LINE_BYTES + 1)?, "too long\n"),
    ] {
        assert_eq!(rt; line.as_slice(), text.as_bytes());
    }
    Ok(())
}

#[test]
fn takes_as_many_cuts_as_a_proof_may_have(rt: HostRuntime) -> Result<(), Fail> {
    let alloc = rt.alloc();
    let table = format!(in alloc; "{HEADER}{SLOPE}")?;
    let mut proof = Vec::from_slice(alloc, b"postman-proof 1\nt 5 0+ 0-\n")?;
    for _ in 0..20_001 {
        proof.extend_from_slice(b"o 0\n")?;
    }
    let answer = answer_of(alloc, table.as_bytes(), &proof, ROOM)?;
    assert_eq!(rt; answer.line.as_slice(), b"refused 20003 Cuts\n".as_slice());
    Ok(())
}

/// The line of a check of which one read of the table or of the proof fails.
fn line_after(alloc: Global, of_table: u64, of_proof: u64) -> Result<Vec<u8>, AllocError> {
    let table = triangle(alloc)?;
    let mut streets = in_pieces(alloc, table.as_bytes(), 0, of_table)?;
    let mut proof = in_pieces(alloc, PROOF.as_bytes(), 0, of_proof)?;
    Ok(answer_to(alloc, &WORDS[..3], &mut streets, &mut proof, ROOM)?.line)
}

#[test]
fn tells_each_read_that_fails(rt: HostRuntime) -> Result<(), Fail> {
    let alloc = rt.alloc();
    for number in 1..(triangle(alloc)?.len() as u64).saturating_add(2) {
        let line = line_after(alloc, number, 0)?;
        assert_eq!(rt;
            line.as_slice(),
            b"read fault\n".as_slice(),
            "read {number}"
        );
    }
    for number in 1..(PROOF.len() as u64).saturating_add(2) {
        let line = line_after(alloc, 0, number)?;
        assert_eq!(rt;
            line.as_slice(),
            b"read fault\n".as_slice(),
            "read {number}"
        );
    }
    Ok(())
}

#[test]
fn keeps_a_refusal_that_cannot_be_written(rt: HostRuntime) -> Result<(), Fail> {
    let alloc = rt.alloc();
    let table = triangle(alloc)?;
    let refused = Status::ProofRefused {
        line: 1,
        rule: Rule::Missing,
    };
    let accepted = Status::Accepted {
        end: End::Optimal { cost: 12 },
    };
    for room in 0..21 {
        let wanted = if room < 20 {
            Status::WriteFault
        } else {
            accepted
        };
        let answer = answer_of(alloc, table.as_bytes(), PROOF.as_bytes(), room)?;
        assert_eq!(rt; answer.status, wanted, "room {room}");
        let answer = answer_of(alloc, table.as_bytes(), b"", room)?;
        assert_eq!(rt; answer.status, refused, "room {room}");
    }
    Ok(())
}

#[test]
fn ends_in_a_fault_where_the_write_fails(rt: HostRuntime) -> Result<(), Fail> {
    let alloc = rt.alloc();
    let mut streets = SteadySource::new(alloc, triangle(alloc)?.as_bytes())?;
    let mut proof = SteadySource::new(alloc, PROOF.as_bytes())?;
    let mut out = MemSink::new(alloc, &[1])?;
    let status = status_of(alloc, &WORDS[..3], &mut streets, &mut proof, &mut out)?;
    assert_eq!(rt; status, Status::WriteFault);
    assert_eq!(rt; out.bytes(), b"".as_slice());
    Ok(())
}

#[test]
fn tells_the_usage(rt: HostRuntime) -> Result<(), Fail> {
    let alloc = rt.alloc();
    let other = ["Check", "streets.csv", "proof.txt"];
    for (texts, room) in [
        (&WORDS[..0], ROOM),
        (&WORDS[..1], ROOM),
        (&WORDS[..2], ROOM),
        (&WORDS[..4], ROOM),
        (&other[..], ROOM),
        (&other[..], 0),
    ] {
        let mut streets = in_pieces(alloc, b"", 0, 1)?;
        let mut proof = in_pieces(alloc, b"", 0, 1)?;
        let answer = answer_to(alloc, texts, &mut streets, &mut proof, room)?;
        assert_eq!(rt; answer.status, Status::Usage);
        assert_eq!(rt;
            answer.line.as_slice(),
            &USAGE.as_bytes()[..room.min(USAGE.len())]
        );
    }
    Ok(())
}
