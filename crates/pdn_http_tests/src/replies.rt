//! Replies as bytes.
use pdn_base::{Code, Kind, Label, Name, Row, Rows, Value};
use pdn_reply::{answer_body, error_body, reply};
use pdn_tree::OutColumn;
use std::alloc::Global;
use std::test::Fail;

fn column(alloc: Global, name: &str, kind: Kind) -> Result<OutColumn, Fail> {
    let name_of = Name::new(alloc, name).ok().ok_or("memory")?;
    let source = Name::new(alloc, name).ok().ok_or("memory")?;
    Ok(OutColumn {
        name: name_of,
        source,
        kind,
        label: Label::Public,
    })
}

#[test]
fn replies_of_refusals(rt: HostRuntime) -> Result<(), Fail> {
    let alloc = rt.alloc();
    for (status, error, wanted) in [
        (
            405,
            "method",
            "HTTP/1.1 405 Method Not Allowed\r\ncontent-type: application/json\r\ncontent-length: 18\r\nallow: GET, POST\r\nconnection: close\r\n\r\n{\"error\":\"method\"}",
        ),
        (
            422,
            "refused 6 diag.code protected",
            "HTTP/1.1 422 Unprocessable Entity\r\ncontent-type: application/json\r\ncontent-length: 41\r\nconnection: close\r\n\r\n{\"error\":\"refused 6 diag.code protected\"}",
        ),
        (
            429,
            "spent",
            "HTTP/1.1 429 Too Many Requests\r\ncontent-type: application/json\r\ncontent-length: 17\r\nconnection: close\r\n\r\n{\"error\":\"spent\"}",
        ),
        (
            507,
            "refused 11 tickets",
            "HTTP/1.1 507 Insufficient Storage\r\ncontent-type: application/json\r\ncontent-length: 30\r\nconnection: close\r\n\r\n{\"error\":\"refused 11 tickets\"}",
        ),
    ] {
        let body = error_body(alloc, error).ok().ok_or("memory")?;
        let bytes = reply(alloc, status, &body).ok().ok_or("memory")?;
        assert_eq!(rt; bytes.as_slice(), wanted.as_bytes(), "{status}");
    }
    Ok(())
}

#[test]
fn the_body_of_an_answer(rt: HostRuntime) -> Result<(), Fail> {
    let alloc = rt.alloc();
    let columns = vec![in alloc;
        column(alloc, "code", Kind::Code)?,
        column(alloc, "n", Kind::Int)?,
    ]?;
    let code = Code::read(b"fl\\u").ok_or("it is a code")?;
    let values = vec![in alloc; Value::Code(code), Value::Int(4294967295)]?;
    let rows = Rows {
        rows: vec![in alloc; Row { values }]?,
    };
    let body = answer_body(alloc, &columns, &rows, 1).ok().ok_or("memory")?;
    let wanted = "{\"columns\":[\"code\",\"n\"],\"rows\":[[\"fl\\\\u\",4294967295]],\"ticket\":1}";
    assert_eq!(rt; body.as_slice(), wanted.as_bytes());
    let none = Rows {
        rows: Vec::new(alloc),
    };
    let body = answer_body(alloc, &columns, &none, 0).ok().ok_or("memory")?;
    let wanted = "{\"columns\":[\"code\",\"n\"],\"rows\":[],\"ticket\":0}";
    assert_eq!(rt; body.as_slice(), wanted.as_bytes());
    Ok(())
}
