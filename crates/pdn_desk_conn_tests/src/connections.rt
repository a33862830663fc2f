//! Connections of the desk: each row of its table, and a caller's calls.
use crate::desks::{Otherwise, ask, desk, schema};
use pdn_desk::DeskEnd;
use std::alloc::Global;
use std::test::Fail;

/// A call of ann's with this number and text.
fn post(alloc: Global, number: u64, text: &str) -> Result<String, Fail> {
    let size = text.len();
    Ok(format!(in alloc;
        "POST /callers/ann/queries/{number} HTTP/1.1\r\ncontent-length: {size}\r\n\r\n{text}"
    )?)
}

/// The reply of this status and phrase, as its format has it.
fn reply(alloc: Global, status: &str, body: &str) -> Result<String, Fail> {
    let size = body.len();
    let allow = if status == "405 Method Not Allowed" {
        "allow: GET, POST\r\n"
    } else {
        ""
    };
    Ok(format!(in alloc;
        "HTTP/1.1 {status}\r\ncontent-type: application/json\r\ncontent-length: {size}\r\n{allow}connection: close\r\n\r\n{body}"
    )?)
}

const COUNT: &str = "SELECT COUNT(*) FROM t WHERE c = 5;";

const CALL: &str =
    "POST /callers/ann/queries/7 HTTP/1.1\r\ncontent-length: 35\r\n\r\nSELECT COUNT(*) FROM t WHERE c = 5;";

/// A request, what stands otherwise, the status of the reply and the error that it names, and the next ticket then.
type Case = (&'static str, Otherwise, &'static str, &'static str, u64);

const CASES: &[Case] = &[
    (
        "GET /callers/ann/queries/7 HTTP/1.1\r\n",
        Otherwise::Nothing,
        "400 Bad Request",
        "request",
        0,
    ),
    (
        "POST /callers/ann/queries/7 HTTP/1.1\r\ntransfer-encoding: chunked\r\n\r\n",
        Otherwise::Nothing,
        "501 Not Implemented",
        "encoding",
        0,
    ),
    (
        "POST /callers/bob/queries/1 HTTP/1.1\r\n\r\n",
        Otherwise::Nothing,
        "404 Not Found",
        "unknown",
        0,
    ),
    (
        "PUT /callers/ann/queries/1 HTTP/1.1\r\n\r\n",
        Otherwise::Nothing,
        "405 Method Not Allowed",
        "method",
        0,
    ),
    (
        "POST /callers/ann/queries/1 HTTP/1.1\r\n\r\n",
        Otherwise::Nothing,
        "411 Length Required",
        "length",
        0,
    ),
    (
        "POST /callers/ann/queries/1 HTTP/1.1\r\ncontent-length: 4097\r\n\r\n",
        Otherwise::Nothing,
        "413 Payload Too Large",
        "long",
        0,
    ),
    (
        CALL,
        Otherwise::DeskFails(1),
        "503 Service Unavailable",
        "refused 10 desk",
        0,
    ),
    // a byte above 0x7F in a line's value
    (
        "GET /callers/ann/queries/7 HTTP/1.1\r\na: \u{e9}\r\n\r\n",
        Otherwise::Nothing,
        "404 Not Found",
        "unknown",
        0,
    ),
    (
        CALL,
        Otherwise::DeskFails(2),
        "503 Service Unavailable",
        "refused 10 desk",
        0,
    ),
    (
        "POST /callers/ann/queries/7 HTTP/1.1\r\ncontent-length: 22\r\n\r\nSELECT COUNT(*) FROM t",
        Otherwise::Nothing,
        "422 Unprocessable Entity",
        "refused 4 place 22 kind 5",
        0,
    ),
    (
        "POST /callers/ann/queries/7 HTTP/1.1\r\ncontent-length: 34\r\n\r\nSELECT pid FROM diag ORDER BY day;",
        Otherwise::Nothing,
        "422 Unprocessable Entity",
        "refused 5 kind 2 day",
        0,
    ),
    (
        "POST /callers/ann/queries/7 HTTP/1.1\r\ncontent-length: 22\r\n\r\nSELECT code FROM diag;",
        Otherwise::Nothing,
        "422 Unprocessable Entity",
        "refused 6 diag.code protected",
        0,
    ),
    (
        CALL,
        Otherwise::SiteAFails(1),
        "503 Service Unavailable",
        "refused 10 site a",
        0,
    ),
    (
        CALL,
        Otherwise::SiteBFails(1),
        "503 Service Unavailable",
        "refused 10 site b",
        0,
    ),
    (
        CALL,
        Otherwise::Rows(2),
        "422 Unprocessable Entity",
        "refused 8 a t rows",
        0,
    ),
    (
        "POST /callers/ann/queries/7 HTTP/1.1\r\ncontent-length: 48\r\n\r\nSELECT a.y FROM wide a JOIN wide b ON a.x = b.x;",
        Otherwise::Nothing,
        "422 Unprocessable Entity",
        "refused 7 limit 1 unit 0",
        0,
    ),
    (
        CALL,
        Otherwise::DeskFails(3),
        "503 Service Unavailable",
        "refused 10 desk",
        0,
    ),
    (
        CALL,
        Otherwise::Next(1099511627776),
        "507 Insufficient Storage",
        "refused 11 tickets",
        1099511627776,
    ),
    (
        CALL,
        Otherwise::DeskFails(4),
        "503 Service Unavailable",
        "refused 10 desk",
        1,
    ),
];

#[test]
fn each_row_of_the_table(rt: HostRuntime) -> Result<(), Fail> {
    let alloc = rt.alloc();
    for (request, otherwise, status, error, next) in CASES {
        let mut desk = desk(alloc, *otherwise)?;
        let schema = schema(alloc, otherwise.rows())?;
        let (_, sent) = ask(&rt, alloc, &schema, &mut desk, request.as_bytes(), None)?;
        let body = format!(in alloc; "{{\"error\":\"{error}\"}}")?;
        let wanted = reply(alloc, status, body.as_str())?;
        assert_eq!(rt; sent.as_slice(), wanted.as_bytes(), "{error}");
        assert_eq!(rt; desk.desk.next(), *next, "{error}");
    }
    Ok(())
}

#[test]
fn ann_at_the_desk(rt: HostRuntime) -> Result<(), Fail> {
    let alloc = rt.alloc();
    let schema = schema(alloc, 8)?;
    let mut desk = desk(alloc, Otherwise::Nothing)?;
    let counted = post(alloc, 7, COUNT)?;
    let other = post(alloc, 7, "SELECT COUNT(*) FROM t;")?;
    let second = post(alloc, 8, "SELECT COUNT(*) FROM t;")?;
    let third = post(alloc, 9, COUNT)?;
    let three = "{\"columns\":[\"count\"],\"rows\":[[3]],\"ticket\":0}";
    let four = "{\"columns\":[\"count\"],\"rows\":[[4]],\"ticket\":1}";
    let get = "GET /callers/ann/queries/7 HTTP/1.1\r\n\r\n";
    let none = "GET /callers/ann/queries/8 HTTP/1.1\r\n\r\n";
    for (request, status, body, next) in [
        (counted.as_str(), "200 OK", three, 1),
        (counted.as_str(), "200 OK", three, 1),
        (other.as_str(), "409 Conflict", "{\"error\":\"differs\"}", 1),
        (get, "200 OK", three, 1),
        (none, "404 Not Found", "{\"error\":\"unknown\"}", 1),
        (second.as_str(), "200 OK", four, 2),
        (
            third.as_str(),
            "429 Too Many Requests",
            "{\"error\":\"spent\"}",
            2,
        ),
        // a number that is kept is no new call
        (other.as_str(), "409 Conflict", "{\"error\":\"differs\"}", 2),
    ] {
        let (_, sent) = ask(&rt, alloc, &schema, &mut desk, request.as_bytes(), None)?;
        let wanted = reply(alloc, status, body)?;
        assert_eq!(rt; sent.as_slice(), wanted.as_bytes(), "{request}");
        assert_eq!(rt; desk.desk.next(), next, "{request}");
    }
    Ok(())
}

#[test]
fn a_link_that_fails(rt: HostRuntime) -> Result<(), Fail> {
    let alloc = rt.alloc();
    let schema = schema(alloc, 8)?;
    let mut desk = desk(alloc, Otherwise::Nothing)?;
    // the call is kept although its reply is lost
    for (bytes, fail, wanted, size, next) in [
        ("", None, DeskEnd::Silent, 0, 0),
        (CALL, Some(1), DeskEnd::Unread, 0, 0),
        (CALL, Some(2), DeskEnd::Lost { status: 200 }, 0, 1),
        (CALL, None, DeskEnd::Replied { status: 200 }, 135, 1),
    ] {
        let (end, sent) = ask(&rt, alloc, &schema, &mut desk, bytes.as_bytes(), fail)?;
        assert_eq!(rt; end, wanted);
        assert_eq!(rt; sent.len(), size);
        assert_eq!(rt; desk.desk.next(), next);
    }
    Ok(())
}
