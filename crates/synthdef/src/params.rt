ghost use Rattle.std.specs.Prelude.{◌≡◌};
ghost use Rattle.synthdef.specs.Tables.{param_rows};
ghost use Rattle.synthdef.specs.Params.{param_node};

use crate::def::Params;
use node::name::{Name, same_name};

// The node of the first parameter of that name, or none.
pub fn param_node(ps: Params, name: Name) -> Option<u8>
    ensures { result ≡ param_node (param_rows ps) name }
{
    ps.as_slice()
        .iter()
        .find(|p| same_name(p.name, name))
        .map(|p| p.node)
}
