//! Whether a subpass uses one attachment with two layouts.
ghost use Rattle.std.specs.Prelude.{◌≡◌, not, unwrap_or, IfOk};
ghost use Rattle.std.specs.List.{list_any};
ghost use Rattle.std.specs.BTreeMap.{get};
ghost use Rattle.std.specs.Ordering.{nat_cmp};
ghost use Rattle.sv_mask.specs.Usages.{same_layout};
ghost use Rattle.sv_rules.specs.Places as spec;
ghost use Rattle.sv_lines.specs.Tables.{Puts};

use std::alloc::{AllocError, Global};
use std::collections::BTreeMap;
use sv_mask::Layout;
use sv_model::line::{Line, PassUse};
use sv_range::List;

/// Whether the use has another layout than the first use of its attachment, which it is itself where there
/// was none.
fn differs_from_first(firsts: &mut BTreeMap<u32, Layout>, u: &PassUse) -> Result<bool, AllocError>
    ensures differs { IfOk result (λ differs. differs
        ≡ not (same_layout u.now.layout (unwrap_or (get nat_cmp firsts.old u.now.att) u.now.layout))) }
    ensures kept { IfOk result (λ differs. Puts firsts.old firsts.new u.now.att
        (unwrap_or (get nat_cmp firsts.old u.now.att) u.now.layout)) }
{
    match firsts.get(&u.att).copied() {
        Some(layout) => Ok(!u.layout.is_same(layout)),
        None => {
            firsts.insert(u.att, u.layout)?;
            Ok(false)
        }
    }
}

/// Whether the subpass uses one attachment with two layouts.
fn has_two_layouts(alloc: Global, uses: &[PassUse]) -> Result<bool, AllocError>
    ensures { IfOk result (λ two. two ≡ spec.has_two_layouts uses.now) }
{
    let mut firsts = BTreeMap::new(alloc);
    for u in uses {
        let differs = differs_from_first(&mut firsts, u)?;
        if differs {
            return Ok(true);
        }
    }
    Ok(false)
}

fn any_two_layouts(alloc: Global, subpasses: &[List<PassUse>]) -> Result<bool, AllocError>
    ensures { IfOk result (λ two. two ≡ list_any spec.has_two_layouts subpasses.now) }
{
    for uses in subpasses {
        let two = has_two_layouts(alloc, uses.as_slice())?;
        if two {
            return Ok(true);
        }
    }
    Ok(false)
}

/// Whether the line declares a pass of which a subpass uses one attachment with two layouts.
pub fn has_unclear_use(alloc: Global, line: &Line) -> Result<bool, AllocError>
    ensures { IfOk result (λ unclear. unclear ≡ spec.has_unclear_use line.now) }
{
    match line {
        Line::RenderPass { subpasses, .. } => {
            let two = any_two_layouts(alloc, subpasses.as_slice())?;
            Ok(two)
        }
        _ => Ok(false),
    }
}
