//! How a run ends whose file is refused.
ghost use Rattle.std.specs.Prelude.{◌≡◌, ◌≢◌, IfOk};
ghost use Rattle.fx_cert.specs.declared.fault.CertFault.TheVariants as cert;
ghost use Rattle.fx_keys.specs.declared.fault.FilterFault.TheVariants as filter;
ghost use Rattle.fx_text.specs.declared.fault.CodeFault.TheVariants as code;
ghost use Rattle.fx_tool.specs.Refused.{refused_certificate, refused_code, refused_filter};

use crate::ending::Ending;
use crate::status::Status;
use fx_cert::CertFault;
use fx_files::FilterFault;
use fx_lines::{cert_fault_line, code_fault_line, filter_fault_line};
use fx_text::CodeFault;
use std::alloc::{AllocError, Global};

/// A refused filter ends the run with its line.
///
/// # Errors
///
/// Want of memory, also where the fault is that.
pub fn refused_filter(alloc: Global, fault: &FilterFault) -> Result<Ending, AllocError>
    ensures answer { IfOk result (λ e. e ≡ refused_filter fault.now) }
    ensures fault { IfOk result (λ e. fault.now ≢ filter.NoMemory) }
{
    if let FilterFault::NoMemory = fault {
        return Err(AllocError);
    }
    Ok(Ending::new(Status::BadFilter, filter_fault_line(alloc, fault)?))
}

/// Refused code ends the run with its line.
///
/// # Errors
///
/// Want of memory, also where the fault is that.
pub fn refused_code(alloc: Global, fault: &CodeFault) -> Result<Ending, AllocError>
    ensures answer { IfOk result (λ e. e ≡ refused_code fault.now) }
    ensures fault { IfOk result (λ e. fault.now ≢ code.NoMemory) }
{
    if let CodeFault::NoMemory = fault {
        return Err(AllocError);
    }
    Ok(Ending::new(Status::BadCode, code_fault_line(alloc, fault)?))
}

/// A refused certificate ends the run with its line.
///
/// # Errors
///
/// Want of memory, also where the fault is that.
pub fn refused_certificate(alloc: Global, fault: &CertFault) -> Result<Ending, AllocError>
    ensures answer { IfOk result (λ e. e ≡ refused_certificate fault.now) }
    ensures fault { IfOk result (λ e. fault.now ≢ cert.NoMemory) }
{
    if let CertFault::NoMemory = fault {
        return Err(AllocError);
    }
    Ok(Ending::new(Status::BadCertificate, cert_fault_line(alloc, fault)?))
}
