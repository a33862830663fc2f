//! What a connection's bytes come to, as a text.
use pdn_http::{NoRequest, Request, read_request};
use pdn_link::{Link, MemLink};
use pdn_schema::{Schema, read_schema};
use std::alloc::Global;
use std::test::Fail;

const SCHEMA: &[u8] = b"version 1\nfloor 3\ncaller ann calls 2\ncaller bo calls 1\n\
    table t rows 8\ncolumn c int private\nend\n";

/// A schema with the callers ann and bo.
pub fn schema(alloc: Global) -> Result<Schema, Fail> {
    Ok(read_schema(alloc, SCHEMA).ok().ok_or("it is a schema")?)
}

/// What is read of a link, as a text.
pub fn read<L: Link>(alloc: Global, link: &mut L) -> Result<String, Fail> {
    let schema = schema(alloc)?;
    match read_request(alloc, link, &schema) {
        Ok(Request::Get(call)) => {
            let (caller, number) = (call.caller, call.number);
            Ok(format!(in alloc; "get {caller} {number}")?)
        }
        Ok(Request::Post(call, body)) => {
            let (caller, number) = (call.caller, call.number);
            let text = str::from_utf8(&body).ok().ok_or("it is a text")?;
            Ok(format!(in alloc; "post {caller} {number} {text}")?)
        }
        Err(NoRequest::Silent) => Ok(format!(in alloc; "silent")?),
        Err(NoRequest::Unread) => Ok(format!(in alloc; "unread")?),
        Err(NoRequest::Memory) => Ok(format!(in alloc; "memory")?),
        Err(NoRequest::Refused(refusal)) => {
            let (status, error) = (refusal.status(), refusal.error());
            Ok(format!(in alloc; "{status} {error}")?)
        }
    }
}

/// What these bytes come to, where no call fails.
pub fn outcome(alloc: Global, bytes: &[u8]) -> Result<String, Fail> {
    let input = bytes.to_vec(alloc)?;
    let mut link = MemLink::new(alloc, input, 0, Vec::new(alloc))
        .ok()
        .ok_or("memory")?;
    read(alloc, &mut link)
}
