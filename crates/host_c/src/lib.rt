// The functions of the crate host for C: each export calls the one of the same name, and promises the same.
#![tactic(auto)]

ghost use Rattle.std.specs.Prelude.{◌≡◌};
ghost use Rattle.host.specs.Call.{Called, rrt_call, connect_call, star_call, prm_call};

use host::Report;

#[unsafe(no_mangle)]
pub extern "C" fn rindmosaic_rrt(
    setup: &[f64; 15],
    kinds: &[u8; 32],
    numbers: &[f64; 192],
    keep_outs: usize,
    samples: &[f64],
    route: &mut [f64],
) -> Report
    ensures { Called (rrt_call setup.now kinds.now keep_outs samples.now route.old) kinds.now numbers.now keep_outs result route.new }
{
    host::rindmosaic_rrt(setup, kinds, numbers, keep_outs, samples, route)
}

#[unsafe(no_mangle)]
pub extern "C" fn rindmosaic_connect(
    setup: &[f64; 15],
    kinds: &[u8; 32],
    numbers: &[f64; 192],
    keep_outs: usize,
    samples: &[f64],
    route: &mut [f64],
) -> Report
    ensures { Called (connect_call setup.now kinds.now keep_outs samples.now route.old) kinds.now numbers.now keep_outs result route.new }
{
    host::rindmosaic_connect(setup, kinds, numbers, keep_outs, samples, route)
}

#[unsafe(no_mangle)]
pub extern "C" fn rindmosaic_star(
    setup: &[f64; 15],
    search_radius: f64,
    kinds: &[u8; 32],
    numbers: &[f64; 192],
    keep_outs: usize,
    samples: &[f64],
    route: &mut [f64],
) -> Report
    ensures { Called (star_call setup.now search_radius kinds.now keep_outs samples.now route.old) kinds.now numbers.now keep_outs result route.new }
{
    host::rindmosaic_star(
        setup,
        search_radius,
        kinds,
        numbers,
        keep_outs,
        samples,
        route,
    )
}

#[unsafe(no_mangle)]
pub extern "C" fn rindmosaic_prm(
    setup: &[f64; 15],
    kinds: &[u8; 32],
    numbers: &[f64; 192],
    keep_outs: usize,
    added: usize,
    samples: &[f64],
    queries: u8,
    route: &mut [f64],
) -> Report
    ensures { Called (prm_call setup.now kinds.now numbers.now keep_outs added samples.now queries route.old) kinds.now numbers.now keep_outs result route.new }
{
    host::rindmosaic_prm(
        setup, kinds, numbers, keep_outs, added, samples, queries, route,
    )
}
