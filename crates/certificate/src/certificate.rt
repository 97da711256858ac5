//! Certificates.
ghost use Rattle.std.specs.Prelude.{◌≡◌, true, All, IfOk, OnOk, OnErr};
ghost use Rattle.std.specs.Io.KnownBytes.{Appends};
ghost use Rattle.certificate.specs.Body.{Cert, HasSpelling, IsChainText};
ghost use Rattle.certificate.specs.BodyOf.{body_of};
ghost use Rattle.certificate.specs.CertificateOf.{certificate_of, chains_shown, shows_chains};
ghost use Rattle.assignment.specs.Verdict.{verdict_set, verdict_of};
ghost use Rattle.certificate.specs.Spelling.{spelling};
ghost use Rattle.certificate.specs.CertificateLines.{Gives, certificate_in};

use crate::body::{CertBody, certificate_in};
use crate::fault::CertFault;
use crate::naming::body_of;
use crate::value::CertChain;
use crate::version::{CertVersion, version_for};
use crate::writing::put_certificate;
use assignment::Verdict;
use std::alloc::{AllocError, Global};
use std::io::Write;
use std::marker::Model;
use streams::{Outlet, Watched, WriteFailed};

/// Reasons for a verdict, which anybody can check against the set: `of` and `read` alone make them.
#[derive(Drop)]
pub struct Certificate {
    version: CertVersion,
    body: CertBody,
    chains: Vec<CertChain>,
}

impl Model for Certificate {
    ghost use Rattle.certificate.specs.Body.{Cert, HasSpelling};
    ghost use Rattle.certificate.specs.BodyOf.{body_of};

    ghost Value = { Cert };

    ghost view = { λ c. record { version = c.version; body = body_of c.body; chains = c.chains.items } };

    ghost invariant = { λ c. HasSpelling (record {
      version = c.version;
      body = body_of c.body;
      chains = c.chains.items;
    }) };
}

// Whether chains are shown: of a best order, if there are some.
fn shows_chains(body: &CertBody, chains: &[CertChain]) -> bool
    ensures { result ≡ shows_chains (body_of body.now) chains.now }
{
    match body {
        CertBody::Best(_) => !chains.is_empty(),
        CertBody::NoOrder(_) => false,
    }
}

// Those of them that are shown.
fn chains_shown(
    alloc: Global,
    body: &CertBody,
    chains: &[CertChain],
) -> Result<Vec<CertChain>, AllocError>
    ensures { IfOk result (λ shown. shown.items ≡ chains_shown (body_of body.now) chains.now) }
{
    match body {
        CertBody::Best(_) => Vec::from_slice(alloc, chains),
        CertBody::NoOrder(_) => Ok(Vec::new(alloc)),
    }
}

impl Certificate {
    /// The certificate of a verdict: its numbers and reasons, with the names of the tasks, and, of a best order, these chains
    /// with their numbers, of the version that serves the set. The error is out of memory.
    pub fn of(
        alloc: Global,
        verdict: &Verdict,
        chains: &[CertChain],
    ) -> Result<Certificate, AllocError>
        requires { All IsChainText chains.now }
        ensures { IfOk result (λ c. c ≡ certificate_of (verdict_set verdict.now)
            (verdict_of verdict.now) chains.now) }
    {
        let set = verdict.set();
        // Its contract says that the set is one of at most 32 valid sheets.
        let _sheets = set.sheets();
        let body = body_of(alloc, verdict)?;
        let version = version_for(shows_chains(&body, chains), set);
        let chains = chains_shown(alloc, &body, chains)?;
        Ok(Certificate {
            version,
            body,
            chains,
        })
    }

    /// The version of the certificate.
    pub fn version(&self) -> CertVersion
        ensures { result ≡ self.now.version }
    {
        self.version
    }

    /// What the certificate says.
    pub fn body(&self) -> &CertBody
        ensures same { body_of result.now ≡ self.now.body }
        ensures spelled { HasSpelling self.now }
    {
        &self.body
    }

    /// The chains of which it speaks, each with a number.
    pub fn chains(&self) -> &[CertChain]
        ensures { result.now ≡ self.now.chains }
    {
        &self.chains
    }

    /// Writes the spelling, through a buffer of 16,384 bytes. The error comes where the writer fails, or has failed:
    /// how much of the spelling went out is then open.
    pub fn write<W: Write + Drop>(&self, out: &mut Watched<W>) -> Result<(), WriteFailed>
        ensures written { OnOk result
            (Appends (W.contents out.old.inner) (W.contents out.new.inner) (spelling self.now)) }
        ensures ok { OnOk result (out.new.has_failed ≡ out.old.has_failed) }
        ensures failed { OnErr result (out.new.has_failed ≡ true) }
    {
        let mut outlet = Outlet::new(out);
        put_certificate(self.version, &self.body, &self.chains, &mut outlet)?;
        outlet.send()
    }
}

/// Reads a certificate. Lines end with LF, the last one too; a fault is that of the first line that shows one,
/// or out of memory.
pub fn read(alloc: Global, bytes: &[u8]) -> Result<Certificate, CertFault>
    ensures found { IfOk result (λ c. (bytes.now ≡ spelling c) × HasSpelling c) }
    ensures only { (c : Cert) → HasSpelling c → bytes.now ≡ spelling c
        → Gives (λ x. x) result (Ok c) }
    ensures exact { Gives (λ c. c) result (certificate_in bytes.now) }
{
    match certificate_in(alloc, bytes) {
        Ok(parts) => Ok(Certificate {
            version: parts.version,
            body: parts.body,
            chains: parts.chains,
        }),
        Err(fault) => Err(fault),
    }
}
