//! The net of a candidate.

ghost use Rattle.std.specs.Prelude.{◌≡◌, ◌≤◌};
ghost use Rattle.fx_net.specs.Tables.{net_of};
ghost use Rattle.fx_block.specs.Candidate.{candidate_count};
ghost use Rattle.fx_make.specs.Designs.{AreRowsOf};
ghost use Rattle.fx_make.specs.Targets.{padded_net};

use fx_files::Filter;
use fx_net::Net;
use fx_quant::Design;

/// Puts the rows of a design and, behind them, the expanded rows of a filter into a net; its other rows are empty then.
pub fn put_joint<const N: usize>(net: &mut Net<N>, f: &Filter, d: &Design)
    requires rows { AreRowsOf f.now d.now }
    requires room { candidate_count f.now d.now.rows ≤ N }
    ensures { net_of net.new ≡ padded_net N f.now d.now.rows }
{
    net.clear();
    d.put_net(net, 0);
    net.put_eqs(f.eqs(), d.rows());
}
