//! A store's connection.
use crate::fault::Fault;
use crate::form::{Form, make_ready};
use crate::place::Place;
use sqlite::{Alter, Connection};

/// A store's connection, which is opened where it is first used. Nobody else can change what it is to, so that its
/// tables are looked at once.
#[derive(Drop)]
pub(crate) struct Link<S: Alter, P> {
    place: P,
    conn: Option<Connection<S>>,
    is_ready: bool,
}

impl<S: Alter, P> Link<S, P> {
    /// To what is opened at this place, unless a connection is given.
    pub(crate) fn new(place: P, conn: Option<Connection<S>>) -> Link<S, P> {
        Link {
            place,
            conn,
            is_ready: false,
        }
    }

    /// The connection, where one is open.
    pub(crate) fn into_connection(self) -> Option<Connection<S>>
    where
        P: Drop,
    {
        let Link {
            place: _,
            conn,
            is_ready: _,
        } = self;
        conn
    }
}

impl<S: Alter + Drop, P: Place<S>> Link<S, P> {
    /// The connection, to a database whose tables are of this form.
    pub(crate) fn conn(&mut self, form: &Form) -> Result<&mut Connection<S>, Fault> {
        if self.conn.is_none() {
            self.conn = Some(self.place.open()?);
        }
        let Some(conn) = &mut self.conn else {
            return Err(Fault::Refused);
        };
        if !self.is_ready {
            make_ready(conn, form)?;
            self.is_ready = true;
        }
        Ok(conn)
    }
}
