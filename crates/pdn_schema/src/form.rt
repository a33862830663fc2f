//! What a line says.

ghost use Rattle.std.specs.Prelude.{◌≡◌, IfOk, true};
ghost use Rattle.pdn_schema.specs.Names.{is_small, is_name_byte, all_name_bytes, is_keyword, is_name};
ghost use Rattle.pdn_schema.specs.Forms.{number_of, kind_said, version_or, floor_or, caller_or, table_or, public_or, hidden_or, two_words, four_words, six_words, form_of};
ghost use Rattle.pdn_schema.specs.declared.form.Form.TheVariants as forms;

use crate::Name;
use crate::words::Text;
use pdn_base::{Kind, Label};
use std::alloc::{AllocError, Global};

/// A line's form. None of them is `Nothing`.
#[derive(Drop)]
pub enum Form {
    Version(u64),
    Floor(u64),
    Caller {
        name: Name,
        calls: u64,
    },
    Table {
        name: Name,
        rows: u64,
    },
    Column {
        name: Name,
        kind: Kind,
        mark: Label,
        per: u64,
    },
    End,
    Nothing,
}

/// The number that a word is.
pub fn number_of(word: &Text) -> Option<u64>
    ensures { result ≡ number_of word.now }
{
    let bytes = word.as_bytes();
    if bytes.is_empty() || bytes.len() > 10 {
        return None;
    }
    let mut n: u64 = 0;
    for b in bytes {
        if *b < 48 || *b > 57 {
            return None;
        }
        n = n * 10 + u64::from(*b - 48);
    }
    Some(n)
}

fn is_small(b: u8) -> bool
    ensures { result ≡ is_small b }
{
    97 <= b && b <= 122
}

fn is_name_byte(b: u8) -> bool
    ensures { result ≡ is_name_byte b }
{
    is_small(b) || (48 <= b && b <= 57) || b == 95
}

fn all_name_bytes(bytes: &[u8]) -> bool
    ensures { result ≡ all_name_bytes bytes.now }
{
    for b in bytes {
        if !is_name_byte(*b) {
            return false;
        }
    }
    true
}

/// Whether SQL keeps this word for itself.
fn is_keyword(word: &Text) -> bool
    ensures { result ≡ is_keyword word.now }
{
    word.is(b"select".as_slice())
        || word.is(b"distinct".as_slice())
        || word.is(b"from".as_slice())
        || word.is(b"as".as_slice())
        || word.is(b"join".as_slice())
        || word.is(b"inner".as_slice())
        || word.is(b"on".as_slice())
        || word.is(b"where".as_slice())
        || word.is(b"and".as_slice())
        || word.is(b"or".as_slice())
        || word.is(b"group".as_slice())
        || word.is(b"by".as_slice())
        || word.is(b"having".as_slice())
        || word.is(b"order".as_slice())
        || word.is(b"limit".as_slice())
        || word.is(b"with".as_slice())
        || word.is(b"count".as_slice())
        || word.is(b"row_number".as_slice())
        || word.is(b"over".as_slice())
        || word.is(b"partition".as_slice())
        || word.is(b"asc".as_slice())
        || word.is(b"desc".as_slice())
}

/// Whether a word can be a name.
#[tactic(auto, unfolding(crate::specs::Names::is_name))]
pub fn is_name(word: &Text) -> bool
    ensures { result ≡ is_name word.now }
{
    let bytes = word.as_bytes();
    !bytes.is_empty()
        && bytes.len() <= 16
        && is_small(bytes[0])
        && all_name_bytes(bytes)
        && !is_keyword(word)
}

/// The kind that a word is.
#[tactic(auto, unfolding(crate::specs::Forms::kind_said))]
fn kind_said(word: &Text) -> Option<Kind>
    ensures { result ≡ kind_said word.now }
{
    if word.is(b"int".as_slice()) {
        Some(Kind::Int)
    } else if word.is(b"code".as_slice()) {
        Some(Kind::Code)
    } else {
        None
    }
}

fn version_or(n: Option<u64>) -> Form
    ensures { result ≡ version_or n }
{
    match n {
        Some(n) => Form::Version(n),
        None => Form::Nothing,
    }
}

fn floor_or(n: Option<u64>) -> Form
    ensures { result ≡ floor_or n }
{
    match n {
        Some(n) => Form::Floor(n),
        None => Form::Nothing,
    }
}

fn caller_or(alloc: Global, name: &Text, calls: Option<u64>) -> Result<Form, AllocError>
    requires { is_name name.now ≡ true }
    ensures { IfOk result (λ f. f ≡ caller_or name.now calls) }
{
    match calls {
        Some(calls) => Ok(Form::Caller {
            name: Name::of_word(alloc, name.as_bytes())?,
            calls,
        }),
        None => Ok(Form::Nothing),
    }
}

fn table_or(alloc: Global, name: &Text, rows: Option<u64>) -> Result<Form, AllocError>
    requires { is_name name.now ≡ true }
    ensures { IfOk result (λ f. f ≡ table_or name.now rows) }
{
    match rows {
        Some(rows) => Ok(Form::Table {
            name: Name::of_word(alloc, name.as_bytes())?,
            rows,
        }),
        None => Ok(Form::Nothing),
    }
}

fn column(alloc: Global, name: &Text, kind: Kind, mark: Label, per: u64) -> Result<Form, AllocError>
    requires { is_name name.now ≡ true }
    ensures { IfOk result (λ f. f ≡ forms.Column name.now kind mark per) }
{
    Ok(Form::Column {
        name: Name::of_word(alloc, name.as_bytes())?,
        kind,
        mark,
        per,
    })
}

fn public_or(
    alloc: Global,
    name: &Text,
    kind: Option<Kind>,
    per: Option<u64>,
) -> Result<Form, AllocError>
    requires { is_name name.now ≡ true }
    ensures { IfOk result (λ f. f ≡ public_or name.now kind per) }
{
    match (kind, per) {
        (Some(kind), Some(per)) => column(alloc, name, kind, Label::Public, per),
        _ => Ok(Form::Nothing),
    }
}

fn hidden_or(
    alloc: Global,
    name: &Text,
    kind: Option<Kind>,
    mark: Label,
) -> Result<Form, AllocError>
    requires { is_name name.now ≡ true }
    ensures { IfOk result (λ f. f ≡ hidden_or name.now kind mark) }
{
    match kind {
        Some(kind) => column(alloc, name, kind, mark, 0),
        None => Ok(Form::Nothing),
    }
}

/// What two words say.
#[tactic(auto, unfolding(crate::specs::Forms::two_words))]
fn two_words(a: &Text, b: &Text) -> Form
    ensures { result ≡ two_words a.now b.now }
{
    if a.is(b"version".as_slice()) {
        return version_or(number_of(b));
    }
    if a.is(b"floor".as_slice()) {
        return floor_or(number_of(b));
    }
    Form::Nothing
}

/// What four words say.
#[tactic(auto, unfolding(crate::specs::Forms::four_words))]
fn four_words(alloc: Global, a: &Text, b: &Text, c: &Text, d: &Text) -> Result<Form, AllocError>
    ensures { IfOk result (λ f. f ≡ four_words a.now b.now c.now d.now) }
{
    if a.is(b"caller".as_slice()) && c.is(b"calls".as_slice()) && is_name(b) {
        return caller_or(alloc, b, number_of(d));
    }
    if a.is(b"table".as_slice()) && c.is(b"rows".as_slice()) && is_name(b) {
        return table_or(alloc, b, number_of(d));
    }
    if a.is(b"column".as_slice()) && d.is(b"protected".as_slice()) && is_name(b) {
        return hidden_or(alloc, b, kind_said(c), Label::Protected);
    }
    if a.is(b"column".as_slice()) && d.is(b"private".as_slice()) && is_name(b) {
        return hidden_or(alloc, b, kind_said(c), Label::Private);
    }
    Ok(Form::Nothing)
}

/// What six words say.
#[tactic(auto, unfolding(crate::specs::Forms::six_words))]
fn six_words(
    alloc: Global,
    a: &Text,
    b: &Text,
    c: &Text,
    d: &Text,
    e: &Text,
    f: &Text,
) -> Result<Form, AllocError>
    ensures { IfOk result (λ g. g ≡ six_words a.now b.now c.now d.now e.now f.now) }
{
    if a.is(b"column".as_slice())
        && d.is(b"public".as_slice())
        && e.is(b"per".as_slice())
        && is_name(b)
    {
        return public_or(alloc, b, kind_said(c), number_of(f));
    }
    Ok(Form::Nothing)
}

/// What the words of a line say.
#[tactic(auto, unfolding(crate::specs::Forms::form_of))]
pub fn form_of(alloc: Global, words: &[Text]) -> Result<Form, AllocError>
    ensures { IfOk result (λ f. f ≡ form_of words.now) }
{
    let Some((a, rest)) = words.split_first() else {
        return Ok(Form::Nothing);
    };
    let Some((b, rest)) = rest.split_first() else {
        return Ok(if a.is(b"end".as_slice()) {
            Form::End
        } else {
            Form::Nothing
        });
    };
    let Some((c, rest)) = rest.split_first() else {
        return Ok(two_words(a, b));
    };
    let Some((d, rest)) = rest.split_first() else {
        return Ok(Form::Nothing);
    };
    let Some((e, rest)) = rest.split_first() else {
        return four_words(alloc, a, b, c, d);
    };
    let Some((f, rest)) = rest.split_first() else {
        return Ok(Form::Nothing);
    };
    if !rest.is_empty() {
        return Ok(Form::Nothing);
    }
    six_words(alloc, a, b, c, d, e, f)
}
