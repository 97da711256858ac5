//! A whole certificate.
ghost use Rattle.std.specs.Prelude.{◌≡◌, IfOk};
ghost use Rattle.certificate.specs.Body.{may_chain};
ghost use Rattle.certificate.specs.BodyOf.{body_of, cert_of};
ghost use Rattle.certificate.specs.CertificateLines.{Gives, at_place, body_at, chains_from, version_in, certificate_in};

use crate::fault::CertFault;
use crate::reading::{Reader, count_of, end, is_word, next_line};
use crate::value::{CertChain, CertFail, CertLevel};
use crate::version::CertVersion;
use crate::words::chain_if;
use lines::{TextPlace, complete_line};
use std::alloc::{AllocError, Global};

/// What a certificate says.
#[derive(Drop)]
pub enum CertBody {
    /// The levels of an order, the lowest first.
    Best(Vec<CertLevel>),
    /// The members of a set of which none may stand below the others.
    NoOrder(Vec<CertFail>),
}

/// What a certificate is made of: its version, what it says, and of which chains.
#[derive(Drop)]
pub struct Parts {
    pub version: CertVersion,
    pub body: CertBody,
    pub chains: Vec<CertChain>,
}

impl Reader {
    // What stands between the first line and the last one.
    #[tactic(auto, unfolding(crate::specs::CertificateLines::body_at))]
    fn body(self, at: &mut TextPlace<'_>) -> Result<CertBody, CertFault>
        ensures { Gives (λ body. (body_of body, at_place at.new)) result
            (body_at self.version (at_place at.old)) }
    {
        let second = next_line(at)?;
        if let Some(count) = count_of(b"best", second) {
            return Ok(CertBody::Best(self.levels(count, at)?));
        }
        if let Some(count) = count_of(b"none", second) {
            return Ok(CertBody::NoOrder(self.members(count, at)?));
        }
        Err(CertFault::BadLine { line: 2 })
    }
}

// Whether chains may stand behind a body: from version 5 on, behind levels.
fn may_chain(version: CertVersion, body: &CertBody) -> bool
    ensures { result ≡ may_chain version (body_of body.now) }
{
    match (version, body) {
        (CertVersion::Fifth, CertBody::Best(_)) => true,
        _ => false,
    }
}

// The chains of the lines `chain` that come next, where they may stand.
fn chains(alloc: Global, may: bool, at: &mut TextPlace<'_>) -> Result<Vec<CertChain>, AllocError>
    ensures { IfOk result (λ chains. (chains.items, at_place at.new)
        ≡ chains_from may (at_place at.old).parts at.old.line) }
{
    let mut chains = Vec::new(alloc);
    loop {
        let Some((line, after)) = complete_line(*at) else {
            return Ok(chains);
        };
        let Some(chain) = chain_if(may, line) else {
            return Ok(chains);
        };
        chains.push(chain)?;
        *at = after;
    }
}

// The version that a first line names.
fn version_in(head: &[u8]) -> Option<CertVersion>
    ensures { result ≡ version_in head.now }
{
    if is_word(head, b"desk-certificate 1") {
        Some(CertVersion::First)
    } else if is_word(head, b"desk-certificate 2") {
        Some(CertVersion::Second)
    } else if is_word(head, b"desk-certificate 4") {
        Some(CertVersion::Fourth)
    } else if is_word(head, b"desk-certificate 5") {
        Some(CertVersion::Fifth)
    } else {
        None
    }
}

/// The certificate that the bytes are, or the first fault.
#[tactic(auto, unfolding(crate::specs::CertificateLines::certificate_in))]
pub fn certificate_in(alloc: Global, bytes: &[u8]) -> Result<Parts, CertFault>
    ensures { Gives cert_of result (certificate_in bytes.now) }
{
    let mut at = TextPlace::start(bytes);
    let Some(version) = version_in(next_line(&mut at)?) else {
        return Err(CertFault::BadHead);
    };
    let body = Reader { alloc, version }.body(&mut at)?;
    let chains = chains(alloc, may_chain(version, &body), &mut at)?;
    end(&mut at)?;
    Ok(Parts {
        version,
        body,
        chains,
    })
}
