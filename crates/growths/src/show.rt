// The steps of a case, each printed as it is taken.
ghost use Rattle.std.specs.Prelude.{◌≤◌};
ghost use Rattle.estimate.specs.Stores.{HasRoom};

use crate::case::{Case, Sight};
use estimate::Store;
use network::Network;
use std::io;
use steps::side_of;
use time::{TimeKind, WholeTicks};
use zones::Ticks;

// The locations of the network's processes.
fn show_place(rt: &HostRuntime, network: &Network, here: &[u8]) -> io::Result<()> {
    for (p, location) in here.iter().take(network.processes().len()).enumerate() {
        let mark = if p == 0 { " " } else { "." };
        print!(rt; "{mark}{location}")?;
    }
    Ok(())
}

// The entries from `first` on and below `used`.
fn show_entries(
    rt: &HostRuntime,
    store: &Store<'_, WholeTicks>,
    first: usize,
    used: usize,
) -> io::Result<()>
    requires { first ≤ used }
{
    print!(rt; "{}:", used - first)?;
    let places = store.locations.as_chunks::<8>().0;
    for here in places.iter().take(used).skip(first) {
        show_place(rt, store.network, here)?;
    }
    Ok(())
}

// The first entries of the store grown.
fn show_growth(
    rt: &HostRuntime,
    store: &mut Store<'_, WholeTicks>,
    case: &Case<'_>,
    ticks: Ticks,
    first: usize,
) -> io::Result<()>
    requires room { HasRoom store.old case.now.entries }
    requires first { first ≤ case.now.entries }
    ensures room { HasRoom store.new case.now.entries }
{
    match store.grow(case.loose, ticks, first, case.entries) {
        None => print!(rt; "overrun"),
        Some(used) => {
            show_entries(rt, store, first, used)?;
            print!(rt; " to {}", store.latest(first, used))
        }
    }
}

// The estimate of the start taken through a see, and what that leaves grown.
fn show_sight(
    rt: &HostRuntime,
    store: &mut Store<'_, WholeTicks>,
    case: &Case<'_>,
    sight: Sight,
) -> io::Result<()>
    requires room { HasRoom store.old case.now.entries }
{
    print!(rt; " | ")?;
    match store.see(sight.channel, case.ticks, 1, case.entries) {
        None => print!(rt; "overrun"),
        Some(used) => {
            show_entries(rt, store, 0, used)?;
            print!(rt; " | ")?;
            show_growth(rt, store, case, sight.behind, used)
        }
    }
}

pub(crate) fn show_steps(rt: &HostRuntime, case: &Case<'_>, network: &Network) -> io::Result<()> {
    let side = side_of(network);
    let mut bounds = vec![in rt.alloc(); WholeTicks::none(); side * side * (case.entries + 1)]?;
    let mut locations = vec![in rt.alloc(); 0; 8 * case.entries]?;
    let mut store = Store {
        bounds: bounds.as_mut_slice(),
        locations: locations.as_mut_slice(),
        network,
    };
    store.begin(case.entries);
    show_growth(rt, &mut store, case, case.ticks, 1)?;
    if let Some(sight) = case.sight {
        show_sight(rt, &mut store, case, sight)?;
    }
    println!(rt; "")
}
