use super::*;
use std::alloc::Global;
use std::process::Abort;
use std::test::*;

// A document as a short text: strings as they are, `n`, `t` and `f` for the words, numbers behind `#`.
fn show(out: &mut Vec<u8>, doc: &Doc) -> Result<(), Fail> {
    match doc {
        Doc::Null => out.push(b'n')?,
        Doc::Bool(true) => out.push(b't')?,
        Doc::Bool(false) => out.push(b'f')?,
        Doc::Num(text) => {
            out.push(b'#')?;
            out.extend_from_slice(text.as_slice())?;
        }
        Doc::Str(text) => {
            out.push(b'\'')?;
            out.extend_from_slice(text.as_slice())?;
            out.push(b'\'')?;
        }
        Doc::List(items) => {
            out.push(b'(')?;
            for item in items {
                show(out, item)?;
                out.push(b';')?;
            }
            out.push(b')')?;
        }
        Doc::Obj(members) => {
            out.push(b'{')?;
            for (name, value) in members {
                out.extend_from_slice(name.as_slice())?;
                out.push(b'=')?;
                show(out, value)?;
                out.push(b';')?;
            }
            out.push(b'}')?;
        }
    }
    Ok(())
}

// Texts that have a value, each with that value as `show` shows it.
const READ: [[&[u8]; 2]; 42] = [
    [b"null", b"n"],
    [b"true", b"t"],
    [b"false", b"f"],
    [b" \t\r\n null \n", b"n"],
    [b"0", b"#0"],
    [b"-0", b"#-0"],
    [b"10", b"#10"],
    [b"-12.50", b"#-12.50"],
    [b"1e5", b"#1e5"],
    [b"1E+05", b"#1E+05"],
    [b"0.0e-00", b"#0.0e-00"],
    [
        b"123456789012345678901234567890",
        b"#123456789012345678901234567890",
    ],
    [b"\"\"", b"''"],
    [b"\"a b\"", b"'a b'"],
    [b"\"\\\"\\\\\\/\"", b"'\"\\/'"],
    [b"\"\\b\\f\\n\\r\\t\"", b"'\x08\x0c\n\r\t'"],
    [b"\"\\u0041\\u00e9\\u20AC\"", b"'A\xc3\xa9\xe2\x82\xac'"],
    [b"\"\\u0000\"", b"'\x00'"],
    [b"\"\\ud83d\\ude00\"", b"'\xf0\x9f\x98\x80'"],
    [b"\"\\uD800\\uDC00\"", b"'\xf0\x90\x80\x80'"],
    [b"\"\\udbff\\udfff\"", b"'\xf4\x8f\xbf\xbf'"],
    [b"\"\\ud7ff\\ue000\"", b"'\xed\x9f\xbf\xee\x80\x80'"],
    [b"\"\xc3\xa9\x7f\"", b"'\xc3\xa9\x7f'"],
    [b"[]", b"()"],
    [b"[ ]", b"()"],
    [b"[1]", b"(#1;)"],
    [b"[ 1 , \"a\" , [ ] ]", b"(#1;'a';();)"],
    [b"[[[]],{}]", b"(((););{};)"],
    [b"[0,-1]", b"(#0;#-1;)"],
    [b"{}", b"{}"],
    [b"{ }", b"{}"],
    [b"{\"a\":1}", b"{a=#1;}"],
    [b"{ \"a\" : null , \"\" : [ ] }", b"{a=n;=();}"],
    [b"{\"a\":1,\"b\":2,\"a\":3}", b"{a=#3;b=#2;}"],
    [
        b"{\"a\":1,\"b\":2,\"\\u0061\":[],\"b\":4,\"a\":5}",
        b"{a=#5;b=#4;}",
    ],
    [
        b"{\"x\":{\"a\":1,\"a\":2},\"y\":{\"a\":3}}",
        b"{x={a=#2;};y={a=#3;};}",
    ],
    [
        b"{\"extra\":{\"a\":{},\"b\":{\"0\":1,\"1\":2},\"a\":3}}",
        b"{extra={a=#3;b={0=#1;1=#2;};};}",
    ],
    [
        b"{\"require\":{\"a/b\":\"^1.0\"},\"name\":\"x/y\"}",
        b"{require={a/b='^1.0';};name='x/y';}",
    ],
    [b"{\"c\":1,\"b\":2,\"a\":3}", b"{c=#1;b=#2;a=#3;}"],
    [b"\"\\uFFFF\"", b"'\xef\xbf\xbf'"],
    [
        b"\"longer than a vector, \\n and on\"",
        b"'longer than a vector, \n and on'",
    ],
    [b"                      [                   1 ]", b"(#1;)"],
];

// Texts that have no value, with the fault and its place: what stands where.
const STRUCTURE: [(&[u8], JsonFault); 26] = [
    (b"", JsonFault::Syntax(0)),
    (b"  ", JsonFault::Syntax(2)),
    (b"{\"a\":1,}", JsonFault::Syntax(7)),
    (b"[1,]", JsonFault::Syntax(3)),
    (b"[,1]", JsonFault::Syntax(1)),
    (b"{,}", JsonFault::Syntax(1)),
    (b"[1 2]", JsonFault::Syntax(3)),
    (b"{\"a\" 1}", JsonFault::Syntax(5)),
    (b"{\"a\":}", JsonFault::Syntax(5)),
    (b"{a:1}", JsonFault::Syntax(1)),
    (b"{1:1}", JsonFault::Syntax(1)),
    (b"{\"a\":1 \"b\":2}", JsonFault::Syntax(7)),
    (b"{\"a\":1]", JsonFault::Syntax(6)),
    (b"[1}", JsonFault::Syntax(2)),
    (b"]", JsonFault::Syntax(0)),
    (b"1 1", JsonFault::Syntax(2)),
    (b"null null", JsonFault::Syntax(5)),
    (b"[]]", JsonFault::Syntax(2)),
    (b"nulL", JsonFault::Syntax(3)),
    (b"True", JsonFault::Syntax(0)),
    (b"truex", JsonFault::Syntax(4)),
    (b"fals3", JsonFault::Syntax(4)),
    (b"NaN", JsonFault::Syntax(0)),
    (b"Infinity", JsonFault::Syntax(0)),
    (b"\xef\xbb\xbf{}", JsonFault::Syntax(0)),
    (b"[\xc3\xa9]", JsonFault::Syntax(1)),
];

// Numbers that are none.
const NUMBERS: [(&[u8], JsonFault); 13] = [
    (b"01", JsonFault::Syntax(1)),
    (b"-01", JsonFault::Syntax(2)),
    (b"+1", JsonFault::Syntax(0)),
    (b".5", JsonFault::Syntax(0)),
    (b"1.", JsonFault::Syntax(2)),
    (b"1.e5", JsonFault::Syntax(2)),
    (b"-", JsonFault::Syntax(1)),
    (b"-a", JsonFault::Syntax(1)),
    (b"1e", JsonFault::Syntax(2)),
    (b"1e+", JsonFault::Syntax(3)),
    (b"1e5.0", JsonFault::Syntax(3)),
    (b"0x10", JsonFault::Syntax(1)),
    (b"[1.5.5]", JsonFault::Syntax(4)),
];

// Strings that are none.
const STRINGS: [(&[u8], JsonFault); 15] = [
    (b"\"", JsonFault::Syntax(1)),
    (b"\"a", JsonFault::Syntax(2)),
    (b"\"a\nb\"", JsonFault::Syntax(2)),
    (b"\"\x1f\"", JsonFault::Syntax(1)),
    (b"'a'", JsonFault::Syntax(0)),
    (b"\"\\x\"", JsonFault::Syntax(2)),
    (b"\"\\u12g4\"", JsonFault::Syntax(5)),
    (b"\"\\u123\"", JsonFault::Syntax(6)),
    // A low half alone ends at the digit that makes it one; a high half wants the other half.
    (b"\"\\udc00\"", JsonFault::Syntax(4)),
    (b"\"\\uDFFF\"", JsonFault::Syntax(4)),
    (b"\"\\ud800\"", JsonFault::Syntax(7)),
    (b"\"\\ud800x\"", JsonFault::Syntax(7)),
    (b"\"\\ud800\\n\"", JsonFault::Syntax(8)),
    (b"\"\\ud800\\u0041\"", JsonFault::Syntax(9)),
    (b"\"\\ud800\\ud800\"", JsonFault::Syntax(10)),
];

// What is not UTF-8 comes first, also behind another fault.
const NOT_UTF8: [(&[u8], JsonFault); 6] = [
    (b"\xff", JsonFault::NotUtf8(0)),
    (b"{\"a\":1,}\x80", JsonFault::NotUtf8(8)),
    (b"\"ab\xc3\"", JsonFault::NotUtf8(3)),
    (b"\"\xed\xa0\x80\"", JsonFault::NotUtf8(1)),
    (b"\"\xe2\x82", JsonFault::NotUtf8(1)),
    (b"\"\xc0\xaf\"", JsonFault::NotUtf8(1)),
];

// The first row whose text is read, or refused with another fault.
fn first_wrong(alloc: Global, rows: &[(&[u8], JsonFault)]) -> Option<usize> {
    for i in 0..rows.len() {
        let row = &rows[i];
        match read(alloc, row.0) {
            Ok(_) => return Some(i),
            Err(fault) => {
                if fault != row.1 {
                    return Some(i);
                }
            }
        }
    }
    None
}

// Texts that have one value: blanks and escapes do not count.
const SAME: [[&[u8]; 2]; 2] = [
    [b"[1,{\"a\":null}]", b" [ 1 , { \"\\u0061\" : null } ] "],
    [b"{\"a\":1,\"a\":2}", b"{\"a\":2}"],
];

// Texts that have two values: the order of names and the spelling of a number do count.
const DIFFERENT: [[&[u8]; 2]; 8] = [
    [b"{\"a\":1,\"b\":2}", b"{\"b\":2,\"a\":1}"],
    [b"1.0", b"1.00"],
    [b"\"1\"", b"1"],
    [b"[]", b"{}"],
    [b"[1]", b"[1,1]"],
    [b"[1,[2]]", b"[1,[3]]"],
    [b"{\"a\":[]}", b"{\"b\":[]}"],
    [b"true", b"false"],
];

// Whether both texts are read, as one value.
fn are_same(alloc: Global, texts: &[&[u8]; 2]) -> Option<bool> {
    let first = read(alloc, texts[0]).ok()?;
    let second = read(alloc, texts[1]).ok()?;
    Some(first == second)
}

// The parts of a document: `{"list":[null,true,"text",-1.5]}`.
fn look(rt: &impl Abort, doc: &Doc) -> Result<(), Fail> {
    let members = doc.as_obj().ok_or("an object")?;
    assert_eq!(rt; members.len(), 1);
    for (name, value) in members {
        assert_eq!(rt; name.as_slice(), b"list".as_slice());
        let items = value.as_list().ok_or("a list")?;
        assert_eq!(rt; items.len(), 4);
        assert!(rt; items[0].is_null());
        assert_eq!(rt; items[1].as_bool(), Some(true));
        assert_eq!(rt; items[2].as_str(), Some(b"text".as_slice()));
        assert_eq!(rt; items[3].as_num(), Some(b"-1.5".as_slice()));
        assert!(rt; items[3].as_str().is_none() && items[3].as_list().is_none());
    }
    Ok(())
}

#[test]
fn values(rt: HostRuntime) -> Result<(), Fail> {
    for row in &READ {
        let doc = read(rt.alloc(), row[0]).ok().ok_or("no value")?;
        let mut shown = Vec::new(rt.alloc());
        show(&mut shown, &doc)?;
        assert_eq!(rt; shown.as_slice(), row[1]);
    }
    Ok(())
}

#[test]
fn faults(rt: HostRuntime) -> Result<(), Fail> {
    assert_eq!(rt; first_wrong(rt.alloc(), &STRUCTURE), None);
    assert_eq!(rt; first_wrong(rt.alloc(), &NUMBERS), None);
    assert_eq!(rt; first_wrong(rt.alloc(), &STRINGS), None);
    assert_eq!(rt; first_wrong(rt.alloc(), &NOT_UTF8), None);
    Ok(())
}

#[test]
fn equality_and_parts(rt: HostRuntime) -> Result<(), Fail> {
    for texts in &SAME {
        assert_eq!(rt; are_same(rt.alloc(), texts), Some(true));
    }
    for texts in &DIFFERENT {
        assert_eq!(rt; are_same(rt.alloc(), texts), Some(false));
    }
    let doc = read(rt.alloc(), b"{\"list\":[null,true,\"text\",-1.5]}").ok();
    look(&rt, &doc.ok_or("no document")?)
}

// Each of these begins a JSON text at each of its lengths, so what is cut faults at its end.
const CUT: [&[u8]; 8] = [
    b"[null",
    b"[true",
    b"[false",
    b"\"a\\n\\u00e9\\ud83d\\ude00",
    b"{\"a\":{\"b\":[1,-2.5e+7,",
    b" [ 1 , { \"x\" : \"\\\\\" } , ",
    b"-",
    b"[1.",
];

#[test]
fn cut_texts(rt: HostRuntime) -> Result<(), Fail> {
    for text in &CUT {
        for len in 0..text.len() + 1 {
            match read(rt.alloc(), text.split_at(len).0) {
                Ok(_) => return Err(Fail::from("a value")),
                Err(fault) => assert_eq!(rt; fault, JsonFault::Syntax(len as u64)),
            }
        }
    }
    Ok(())
}

#[test]
fn levels(rt: HostRuntime) -> Result<(), Fail> {
    let open = vec![in rt.alloc(); b'['; 129]?;
    assert!(rt; matches!(read(rt.alloc(), &open), Err(JsonFault::TooDeep(128))));
    let mut closed = vec![in rt.alloc(); b'['; 128]?;
    for _ in 0..128u8 {
        closed.push(b']')?;
    }
    assert!(rt; read(rt.alloc(), &closed).is_ok());
    // The object counts as a level, and a fault further left comes first.
    let mut inside = vec![in rt.alloc()]?;
    inside.extend_from_slice(b"{\"a\":")?;
    inside.extend_from_slice(&closed)?;
    inside.push(b'}')?;
    assert!(rt; matches!(read(rt.alloc(), &inside), Err(JsonFault::TooDeep(132))));
    let mut early = vec![in rt.alloc()]?;
    early.extend_from_slice(b"[,")?;
    early.extend_from_slice(&open)?;
    assert!(rt; matches!(read(rt.alloc(), &early), Err(JsonFault::Syntax(1))));
    Ok(())
}

// A text, the compact form and the pretty form of its value. Printed by vectors/json_texts.php: PHP's own
// json_encode made both forms.
const PRINTED: [[&[u8]; 3]; 33] = [
    [b"null", b"null", b"null"],
    [b"true", b"true", b"true"],
    [b"false", b"false", b"false"],
    [b"0", b"0", b"0"],
    [b"-12", b"-12", b"-12"],
    [b"1.5", b"1.5", b"1.5"],
    [b"\"\"", b"\"\"", b"\"\""],
    [b"[]", b"[]", b"[]"],
    [b"{}", b"[]", b"{}"],
    [b"[[],{}]", b"[[],[]]", b"[\n    [],\n    {}\n]"],
    [b"\"plain\"", b"\"plain\"", b"\"plain\""],
    [
        b"\"a\\\"b\\\\c\\/d/e\"",
        b"\"a\\\"b\\\\c\\/d\\/e\"",
        b"\"a\\\"b\\\\c/d/e\"",
    ],
    [
        b"\"\\b\\f\\n\\r\\t\\u0000\\u001f\\u007f\\u0080\"",
        b"\"\\b\\f\\n\\r\\t\\u0000\\u001f\x7f\\u0080\"",
        b"\"\\b\\f\\n\\r\\t\\u0000\\u001f\x7f\xc2\x80\"",
    ],
    [
        b"\"\xc3\xa9\xe2\x82\xac/\"",
        b"\"\\u00e9\\u20ac\\/\"",
        b"\"\xc3\xa9\xe2\x82\xac/\"",
    ],
    [
        b"\"\\u00e9\\u20ac\\ud83d\\ude00\"",
        b"\"\\u00e9\\u20ac\\ud83d\\ude00\"",
        b"\"\xc3\xa9\xe2\x82\xac\xf0\x9f\x98\x80\"",
    ],
    [
        b"\"\xf0\x90\x80\x80\"",
        b"\"\\ud800\\udc00\"",
        b"\"\xf0\x90\x80\x80\"",
    ],
    [
        b"\"\\uffff\\u2028\\u2029\"",
        b"\"\\uffff\\u2028\\u2029\"",
        b"\"\xef\xbf\xbf\xe2\x80\xa8\xe2\x80\xa9\"",
    ],
    [b"[1,2,3]", b"[1,2,3]", b"[\n    1,\n    2,\n    3\n]"],
    [
        b"[null,true,false]",
        b"[null,true,false]",
        b"[\n    null,\n    true,\n    false\n]",
    ],
    [
        b"[{\"a\":1},{\"b\":[2]}]",
        b"[{\"a\":1},{\"b\":[2]}]",
        b"[\n    {\n        \"a\": 1\n    },\n    {\n        \"b\": [\n            2\n        ]\n    }\n]",
    ],
    [b"{\"a\":1}", b"{\"a\":1}", b"{\n    \"a\": 1\n}"],
    [
        b"{\"a\":{},\"b\":[]}",
        b"{\"a\":[],\"b\":[]}",
        b"{\n    \"a\": {},\n    \"b\": []\n}",
    ],
    [b"{\"0\":1}", b"[1]", b"{\n    \"0\": 1\n}"],
    [
        b"{\"0\":1,\"1\":2}",
        b"[1,2]",
        b"{\n    \"0\": 1,\n    \"1\": 2\n}",
    ],
    [
        b"{\"1\":1,\"0\":2}",
        b"{\"1\":1,\"0\":2}",
        b"{\n    \"1\": 1,\n    \"0\": 2\n}",
    ],
    [
        b"{\"0\":1,\"2\":2}",
        b"{\"0\":1,\"2\":2}",
        b"{\n    \"0\": 1,\n    \"2\": 2\n}",
    ],
    [b"{\"00\":1}", b"{\"00\":1}", b"{\n    \"00\": 1\n}"],
    [
        b"{\"0\":{\"0\":[]},\"1\":{\"1\":0}}",
        b"[[[]],{\"1\":0}]",
        b"{\n    \"0\": {\n        \"0\": []\n    },\n    \"1\": {\n        \"1\": 0\n    }\n}",
    ],
    [
        b"{\"a\":{},\"b\":{\"0\":1,\"1\":2},\"a\":3}",
        b"{\"a\":3,\"b\":[1,2]}",
        b"{\n    \"a\": 3,\n    \"b\": {\n        \"0\": 1,\n        \"1\": 2\n    }\n}",
    ],
    [
        b"{\"e\":{},\"u\":\"\xc3\xa9/\"}",
        b"{\"e\":[],\"u\":\"\\u00e9\\/\"}",
        b"{\n    \"e\": {},\n    \"u\": \"\xc3\xa9/\"\n}",
    ],
    [
        b"{\"0\":0,\"1\":1,\"2\":2,\"3\":3,\"4\":4,\"5\":5,\"6\":6,\"7\":7,\"8\":8,\"9\":9,\"10\":10}",
        b"[0,1,2,3,4,5,6,7,8,9,10]",
        b"{\n    \"0\": 0,\n    \"1\": 1,\n    \"2\": 2,\n    \"3\": 3,\n    \"4\": 4,\n    \"5\": 5,\n    \"6\": 6,\n    \"7\": 7,\n    \"8\": 8,\n    \"9\": 9,\n    \"10\": 10\n}",
    ],
    [
        b"{\"\xc3\xa9\\\"\":\"x\",\"\":[\" \"]}",
        b"{\"\\u00e9\\\"\":\"x\",\"\":[\" \"]}",
        b"{\n    \"\xc3\xa9\\\"\": \"x\",\n    \"\": [\n        \" \"\n    ]\n}",
    ],
    [
        b"{\"name\":\"x/y\",\"require\":{\"php\":\">=8.1\",\"a/b\":\"^1.0\"},\"autoload\":{\"psr-4\":{\"A\\\\\":[\"src/\",\"lib\"]}}}",
        b"{\"name\":\"x\\/y\",\"require\":{\"php\":\">=8.1\",\"a\\/b\":\"^1.0\"},\"autoload\":{\"psr-4\":{\"A\\\\\":[\"src\\/\",\"lib\"]}}}",
        b"{\n    \"name\": \"x/y\",\n    \"require\": {\n        \"php\": \">=8.1\",\n        \"a/b\": \"^1.0\"\n    },\n    \"autoload\": {\n        \"psr-4\": {\n            \"A\\\\\": [\n                \"src/\",\n                \"lib\"\n            ]\n        }\n    }\n}",
    ],
];

#[test]
fn printed_forms(rt: HostRuntime) -> Result<(), Fail> {
    for row in &PRINTED {
        let doc = read(rt.alloc(), row[0]).ok().ok_or("no value")?;
        let compact = print_hash_form(rt.alloc(), &doc)?;
        assert_eq!(rt; compact.as_slice(), row[1]);
        let pretty = print_pretty(rt.alloc(), &doc)?;
        assert_eq!(rt; pretty.as_slice(), row[2]);
    }
    Ok(())
}
