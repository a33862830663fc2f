//! The folders of cases, and the files in them.
ghost use Rattle.std.specs.Prelude.{◌≤◌, length, All, IfOk};

use crate::case::{CaseErr, NamedFile};
use pdn_base::{FileErr, Files, RealFiles};
use std::alloc::Global;
use std::{fs, io, rt};

/// The names of the folders that lie here, in ascending order.
pub fn cases_there<R: rt::Files + AllocGlobal + Clone + Drop>(rt: &R) -> io::Result<Vec<String>> {
    let mut names = Vec::new(rt.alloc());
    for entry in fs::read_dir(rt, ".")? {
        let entry = entry?;
        if entry.file_type()?.is_dir() {
            names.push(String::from_str(rt.alloc(), entry.file_name())?)?;
        }
    }
    names.sort()?;
    Ok(names)
}

/// The files of a case, by their names in its folder.
pub fn files_in<R: rt::Files + AllocGlobal + Clone + Drop>(
    rt: &R,
    folder: &str,
) -> Result<Vec<NamedFile>, CaseErr>
    ensures { IfOk result (λ files. All (λ f. length f.1.items ≤ 536870912) files.items) }
{
    let alloc = rt.alloc();
    let names = names_in(rt, folder).map_err(|_| CaseErr::Unreadable("its folder"))?;
    let mut files = Vec::new(alloc);
    for name in names {
        files.push(file_in(rt, alloc, folder, name)?)?;
    }
    Ok(files)
}

// The names of its files; a file in a folder of the case has that folder's name and a slash in front.
fn names_in<R: rt::Files + AllocGlobal + Clone + Drop>(
    rt: &R,
    folder: &str,
) -> io::Result<Vec<String>> {
    let mut names = Vec::new(rt.alloc());
    for entry in fs::read_dir(rt, folder)? {
        let entry = entry?;
        let name = String::from_str(rt.alloc(), entry.file_name())?;
        if entry.file_type()?.is_dir() {
            put_names(rt, folder, name.as_str(), &mut names)?;
        } else {
            names.push(name)?;
        }
    }
    Ok(names)
}

fn put_names<R: rt::Files + AllocGlobal + Clone + Drop>(
    rt: &R,
    folder: &str,
    inner: &str,
    names: &mut Vec<String>,
) -> io::Result<()> {
    let path = format!(in rt.alloc(); "{folder}/{inner}")?;
    for entry in fs::read_dir(rt, path.as_str())? {
        let entry = entry?;
        let file = entry.file_name();
        names.push(format!(in rt.alloc(); "{inner}/{file}")?)?;
    }
    Ok(())
}

fn file_in<R: rt::Files + Drop>(
    rt: &R,
    alloc: Global,
    folder: &str,
    name: String,
) -> Result<NamedFile, CaseErr>
    ensures { IfOk result (λ f. length f.1.items ≤ 536870912) }
{
    let path = format!(in alloc; "{folder}/{name}")?;
    match RealFiles::new(rt).read(alloc, path.as_str()) {
        Ok(bytes) => Ok((name, bytes)),
        Err(FileErr::Memory) => Err(CaseErr::Memory),
        Err(_) => Err(CaseErr::Unreadable("a file")),
    }
}
