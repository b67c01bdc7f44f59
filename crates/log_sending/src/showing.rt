//! What the table has for a name, with the path that shows it.

ghost use Rattle.std.specs.Prelude.{◌≡◌, ◌≤◌, IfOk, length};
ghost use Rattle.std.specs.Option.{option_map};
ghost use Rattle.log_sending.specs.Showing.{absence, body_by, body_in};

use ar_cert::Cert;
use ar_message::{Body, PathSteps};
use ar_names::Name;
use domain_table::Table;
use std::alloc::{AllocError, Global};
use tree_proof::{Bottom, Found, Path, path_of};

/// That a name has no certificate, by what is found at its key.
fn absence(alloc: Global, at_key: Found, path: &Path) -> Result<Body, AllocError>
    requires { length path.now.steps ≤ 256 }
    ensures { IfOk result (λ body. body ≡ absence at_key path.now.steps) }
{
    match at_key {
        Found::Absent { bottom } => Ok(Body::Absent {
            bottom,
            path: PathSteps::of_path(alloc, path)?,
        }),
        Found::Present { .. } => Ok(Body::Absent {
            bottom: Bottom::Empty,
            path: PathSteps {
                bytes: Vec::new(alloc),
            },
        }),
    }
}

/// A name's certificate, where it has one, or that it has none.
fn body_by(
    alloc: Global,
    certificate: Option<&Cert>,
    at_key: Found,
    path: &Path,
) -> Result<Body, AllocError>
    requires { length path.now.steps ≤ 256 }
    ensures { IfOk result (λ body.
        body ≡ body_by (option_map (λ c. c.now) certificate.entry) at_key path.now.steps) }
{
    match certificate {
        Some(certificate) => Ok(Body::Present {
            cert: certificate.copy(alloc)?,
            path: PathSteps::of_path(alloc, path)?,
        }),
        None => absence(alloc, at_key, path),
    }
}

/// What the table has for a name.
pub fn body_in(alloc: Global, table: &Table, name: &Name) -> Result<Body, AllocError>
    ensures { IfOk result (λ body. body ≡ body_in table.now name.now) }
{
    let (at_key, path) = path_of(alloc, table.trie(), &name.digest())?;
    let certificate = table.newest(name.text());
    body_by(alloc, certificate, at_key, &path)
}
