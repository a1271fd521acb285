// What no clause says: that the definitions read bytes as a table's author means them.

use crate::{ByteRecord, Records, field_count, is_text, push_line, text_at, trim};
use std::alloc::{AllocError, Global};
use std::test::Fail;

// The numbers of fields of the first three records.
fn shape(alloc: Global, bytes: &[u8]) -> Result<Vec<usize>, AllocError> {
    let mut records = Records::new(alloc, bytes);
    let mut line = ByteRecord::new(alloc);
    let mut counts = Vec::new(alloc);
    for _ in 0..3 {
        if !records.next(&mut line)? {
            return Ok(counts);
        }
        counts.push(field_count(&line))?;
    }
    Ok(counts)
}

#[test]
fn splits_records(rt: HostRuntime) -> Result<(), Fail> {
    for (bytes, want) in [
        (b"\r\n\n\r".as_slice(), [].as_slice()),
        (b"\xEF\xBB\xBFa,b\r\nc\r\n", [2, 1].as_slice()),
        (b"a,b\n\n\rc,d,e", [2, 3].as_slice()),
        (b"\"a,\nb\",\"c\"\"d\"\n", [2].as_slice()),
        (b" \n\"\"\n", [1, 1].as_slice()),
    ] {
        let counts = shape(rt.alloc(), bytes)?;
        assert_eq!(rt; counts.as_slice(), want);
    }
    Ok(())
}

#[test]
fn reads_fields(rt: HostRuntime) -> Result<(), Fail> {
    let bytes = b"\xEF\xBB\xBF\xEF\xBB\xBFa,\" b\"\"\r\",\" c\t\"";
    let mut records = Records::new(rt.alloc(), bytes);
    let mut line = ByteRecord::new(rt.alloc());
    assert!(rt; records.next(&mut line)?);
    assert!(rt;
        is_text(text_at(&line, 0), b"\xEF\xBB\xBFa"),
        "a second mark stays"
    );
    assert!(rt; is_text(text_at(&line, 1), b" b\"\r"), "an inner quote");
    assert!(rt;
        is_text(trim(text_at(&line, 2)), b"c"),
        "blanks inside quotes"
    );
    assert!(rt; is_text(text_at(&line, 3), b""), "no fourth field");
    Ok(())
}

#[test]
fn writes_lines(rt: HostRuntime) -> Result<(), Fail> {
    let mut out = Vec::new(rt.alloc());
    push_line(&mut out, &[b"a,\"b", b"", b" c "])?;
    push_line(&mut out, &[b"d"])?;
    assert_eq!(rt; out.as_slice(), b"\"a,\"\"b\",, c \nd\n".as_slice());
    Ok(())
}
