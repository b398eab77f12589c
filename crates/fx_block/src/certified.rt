ghost use Rattle.fx_block.specs.Certified.{NoneFails, OriginalStaysWithin, PassingIsSound};
ghost use Rattle.fx_block.specs.Made.{CandidatesPass, PassedBoundsAreLeast};

use crate::laws::bounds_make_near;
use crate::least::raises_find_the_least;
use fx_cert::{Cert, certificates_fit};
use fx_code::{Program, programs_fit};
use fx_eqs::systems_fit;
use fx_files::{Filter, filters_fit};

/// A law with nothing to run: where all inequalities hold of a filter, a whole program and a certificate, the program
/// is sound for the filter with the certificate's errors, on all admissible inputs and for all time. And each expanded
/// row of the filter's own equations is within its bound.
pub fn inequalities_make_sound(filter: &Filter, program: &Program, certificate: &Cert)
    ensures sound { PassingIsSound filter.now program.now certificate.now }
    ensures original { OriginalStaysWithin filter.now program.now certificate.now }
{
    filters_fit(filter);
    systems_fit(filter.eqs());
    programs_fit(program);
    certificates_fit(certificate);
    bounds_make_near(program);
}

/// A law with nothing to run: no inequality is told as the first that fails exactly where all of them hold.
pub fn none_fails_where_all_hold()
    ensures { NoneFails }
{}

/// A law with nothing to run: a program that has the rows of a candidate that passes, and a certificate that has its
/// bounds and totals, meet all inequalities. The bounds are the least of all that serve at the candidate's length.
pub fn passing_candidates_pass()
    ensures pass { CandidatesPass }
    ensures least { PassedBoundsAreLeast }
{
    raises_find_the_least();
}
