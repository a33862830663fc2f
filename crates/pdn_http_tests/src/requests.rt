//! Requests of connections.
use crate::bytes::{outcome, read};
use pdn_link::MemLink;
use std::alloc::Global;
use std::test::Fail;

const POST: &str = "POST /callers/ann/queries/7 HTTP/1.1\r\ncontent-length: 3\r\n\r\nabc";

/// The bytes of a connection, and what they come to: each row once and more.
const CASES: &[(&str, &str)] = &[
    ("", "silent"),
    ("GET /callers/ann/queries/7 HTTP/1.1\r\n\r\n", "get 0 7"),
    (
        "GET /callers/bo/queries/18446744073709551615?x=1/2 HTTP/1.0\r\n\r\n",
        "get 1 18446744073709551615",
    ),
    (POST, "post 0 7 abc"),
    // bytes behind the body, as of a second request, are passed over
    (
        "POST /callers/ann/queries/7 HTTP/1.1\r\nContent-Length:  3 \r\n\r\nabcGET / HTTP/1.1\r\n\r\n",
        "post 0 7 abc",
    ),
    // an empty line first, and lines that end in a line feed alone
    (
        "\r\n\nPOST /callers/ann/queries/0 HTTP/1.1\nHOST: a\ncontent-length: 0\n\n",
        "post 0 0 ",
    ),
    ("GET /callers/ann/queries/7 HTTP/2.0\r\n\r\n", "400 request"),
    ("GET /callers/ann/queries/7 HTTP/1.1\r\na: b", "400 request"),
    ("GET /callers/\0/queries/7 HTTP/1.1\r\n\r\n", "400 request"),
    (
        "GET /callers/ann/queries/7 HTTP/1.1\r\na\0: b\r\n\r\n",
        "400 request",
    ),
    (
        "GET /callers/\u{e9}/queries/7 HTTP/1.1\r\n\r\n",
        "404 unknown",
    ),
    (
        "PUT /callers/bob/queries/1 HTTP/1.1\r\nTransfer-Encoding: chunked\r\n\r\n",
        "501 encoding",
    ),
    (
        "POST /callers/ann/queries/1 HTTP/1.1\r\ntransfer-encoding: identity\r\ncontent-length: 3\r\n\r\nabc",
        "501 encoding",
    ),
    (
        "POST /callers/bob/queries/1 HTTP/1.1\r\n\r\n",
        "404 unknown",
    ),
    (
        "GET http://desk/callers/ann/queries/7 HTTP/1.1\r\n\r\n",
        "404 unknown",
    ),
    ("GET /callers/ann/queries/ HTTP/1.1\r\n\r\n", "404 unknown"),
    (
        "GET /callers/ann/queries/7/ HTTP/1.1\r\n\r\n",
        "404 unknown",
    ),
    ("GET /callers//queries/7 HTTP/1.1\r\n\r\n", "404 unknown"),
    (
        "GET /callers/ann/queries/07 HTTP/1.1\r\n\r\n",
        "404 unknown",
    ),
    (
        "GET /callers/ann/queries/+7 HTTP/1.1\r\n\r\n",
        "404 unknown",
    ),
    (
        "GET /callers/ann/queries/%37 HTTP/1.1\r\n\r\n",
        "404 unknown",
    ),
    (
        "GET /callers/ann/queries/18446744073709551616 HTTP/1.1\r\n\r\n",
        "404 unknown",
    ),
    ("PUT /callers/ann/queries/1 HTTP/1.1\r\n\r\n", "405 method"),
    ("HEAD /callers/ann/queries/1 HTTP/1.1\r\n\r\n", "405 method"),
    ("get /callers/ann/queries/1 HTTP/1.1\r\n\r\n", "405 method"),
    ("POST /callers/ann/queries/1 HTTP/1.1\r\n\r\n", "411 length"),
    (
        "POST /callers/ann/queries/1 HTTP/1.1\r\ncontent-length: 3\r\nContent-length: 3\r\n\r\nabc",
        "400 request",
    ),
    (
        "GET /callers/ann/queries/1 HTTP/1.1\r\ncontent-length: 3\r\ncontent-length: 3\r\n\r\n",
        "400 request",
    ),
    (
        "GET /callers/ann/queries/1 HTTP/1.1\r\ncontent-length: \r\n\r\n",
        "400 request",
    ),
    (
        "POST /callers/ann/queries/1 HTTP/1.1\r\ncontent-length: 3a\r\n\r\nabc",
        "400 request",
    ),
    (
        "POST /callers/ann/queries/1 HTTP/1.1\r\ncontent-length: -3\r\n\r\nabc",
        "400 request",
    ),
    (
        "POST /callers/ann/queries/1 HTTP/1.1\r\ncontent-length: 00000000003\r\n\r\nabc",
        "400 request",
    ),
    (
        "POST /callers/ann/queries/1 HTTP/1.1\r\ncontent-length: 0000000003\r\n\r\nabc",
        "post 0 1 abc",
    ),
    (
        "POST /callers/ann/queries/1 HTTP/1.1\r\ncontent-length: 4097\r\n\r\n",
        "413 long",
    ),
    (
        "GET /callers/ann/queries/1 HTTP/1.1\r\ncontent-length: 9999999999\r\n\r\n",
        "413 long",
    ),
    (
        "POST /callers/ann/queries/1 HTTP/1.1\r\ncontent-length: 4096\r\n\r\nabc",
        "400 request",
    ),
];

#[test]
fn each_row_of_the_table(rt: HostRuntime) -> Result<(), Fail> {
    for (bytes, wanted) in CASES {
        let came = outcome(rt.alloc(), bytes.as_bytes())?;
        assert_eq!(rt; came.as_str(), *wanted, "{bytes}");
    }
    Ok(())
}

#[test]
fn each_front_of_a_request_is_no_request(rt: HostRuntime) -> Result<(), Fail> {
    for size in 1..POST.len() {
        let came = outcome(rt.alloc(), &POST.as_bytes()[..size])?;
        assert_eq!(rt; came.as_str(), "400 request");
    }
    Ok(())
}

/// A request with so many lines of `a: b`, and one whose value has so many bytes.
fn with_lines(alloc: Global, lines: usize, size: usize) -> Result<String, Fail> {
    let mut text = String::from_str(alloc, "GET /callers/ann/queries/7 HTTP/1.1\r\n")?;
    for _ in 0..lines {
        text.push_str("a: b\r\n")?;
    }
    text.push_str("c: ")?;
    for _ in 0..size {
        text.push_str("d")?;
    }
    text.push_str("\r\n\r\n")?;
    Ok(text)
}

#[test]
fn the_bounds_of_a_head(rt: HostRuntime) -> Result<(), Fail> {
    // 37 bytes of the first line, 3 of the last one's name, and 4 of two line ends
    for (lines, size, wanted) in [
        (63, 1, "get 0 7"),
        (64, 1, "400 request"),
        (0, 8192 - 44, "get 0 7"),
        (0, 8193 - 44, "400 request"),
    ] {
        let text = with_lines(rt.alloc(), lines, size)?;
        let came = outcome(rt.alloc(), text.as_bytes())?;
        assert_eq!(rt; came.as_str(), wanted);
    }
    Ok(())
}

#[test]
fn a_link_that_fails_is_unread(rt: HostRuntime) -> Result<(), Fail> {
    let alloc = rt.alloc();
    for (bytes, fail, wanted) in [
        ("", 1, "unread"),
        (POST, 1, "unread"),
        (POST, 2, "post 0 7 abc"),
    ] {
        let input = bytes.as_bytes().to_vec(alloc)?;
        let fail = vec![in alloc; fail]?;
        let mut link = MemLink::new(alloc, input, 0, fail).ok().ok_or("memory")?;
        let came = read(alloc, &mut link)?;
        assert_eq!(rt; came.as_str(), wanted);
        assert!(rt; link.sent().is_empty());
    }
    Ok(())
}

#[test]
fn a_target_that_is_no_text_is_no_request(rt: HostRuntime) -> Result<(), Fail> {
    let came = outcome(rt.alloc(), b"GET /callers/\xff/queries/7 HTTP/1.1\r\n\r\n")?;
    assert_eq!(rt; came.as_str(), "400 request");
    Ok(())
}
