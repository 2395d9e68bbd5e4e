//! Doubtful texts, and what is written of them.
use mig_json::{JsonError, parse, write};
use std::alloc::Global;
use std::test::Fail;

/// The canonical text of the save that these bytes are.
fn rewritten(alloc: Global, bytes: &[u8]) -> Result<Vec<u8>, JsonError> {
    let document = parse(alloc, bytes)?;
    let tree = document.tree(alloc)?;
    let text = write(alloc, &tree);
    drop(tree);
    Ok(text?)
}

/// An object with so many lists in it, one inside another.
fn nested(alloc: Global, lists: usize) -> Result<String, JsonError> {
    let mut text = String::from_str(alloc, "{\"a\":")?;
    for _ in 0..lists {
        text.push_str("[")?;
    }
    for _ in 0..lists {
        text.push_str("]")?;
    }
    text.push_str("}")?;
    Ok(text)
}

#[test]
fn saves_are_read_and_written(rt: HostRuntime) -> Result<(), Fail> {
    for (text, want) in [
        ("{}", Some("{}")),
        (
            " {\"b\" : [true, null, \"x\"],\n\"a\": {}}\n",
            Some("{\"a\":{},\"b\":[true,null,\"x\"]}"),
        ),
        (
            "{\"é\":1,\"z\":2,\"Z\":3}",
            Some("{\"Z\":3,\"z\":2,\"é\":1}"),
        ),
        ("{\"n\":1,\"m\":2,\"n\":3}", Some("{\"m\":2,\"n\":3}")),
        ("{\"n\":1.5,\"n\":2}", Some("{\"n\":2}")),
        (
            "{\"n\":9223372036854775807}",
            Some("{\"n\":9223372036854775807}"),
        ),
        (
            "{\"n\":-9223372036854775808}",
            Some("{\"n\":-9223372036854775808}"),
        ),
        ("{\"s\":\"\\u0041\\n\\/\"}", Some("{\"s\":\"A\\n/\"}")),
        ("{\"s\":\"\\ud83d\\ude00\"}", Some("{\"s\":\"😀\"}")),
        ("", None),
        ("[]", None),
        ("{} {}", None),
        ("{}x", None),
        ("{\"a\":1,}", None),
        ("{\"n\":01}", None),
        ("{\"n\":1.5}", None),
        ("{\"n\":1.0}", None),
        ("{\"n\":1e2}", None),
        ("{\"n\":-0}", None),
        ("{\"n\":9223372036854775808}", None),
        ("{\"n\":-9223372036854775809}", None),
        ("{\"s\":\"\\ud800\"}", None),
        ("\u{feff}{}", None),
    ] {
        match rewritten(rt.alloc(), text.as_bytes()) {
            Ok(out) => assert_eq!(rt; str::from_utf8(&out).ok(), want, "at {text}"),
            Err(error) => assert_eq!(rt; (error, want), (JsonError::Wrong, None), "at {text}"),
        }
    }
    let deepest = nested(rt.alloc(), 126)?;
    let out = rewritten(rt.alloc(), deepest.as_bytes())?;
    assert_eq!(rt; out.as_slice(), deepest.as_bytes());
    let too_deep = nested(rt.alloc(), 127)?;
    assert_eq!(rt;
        rewritten(rt.alloc(), too_deep.as_bytes()).err(),
        Some(JsonError::Wrong)
    );
    assert_eq!(rt;
        rewritten(rt.alloc(), b"{\"\xff\":1}").err(),
        Some(JsonError::Wrong)
    );
    Ok(())
}
