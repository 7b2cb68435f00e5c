// The text of a generated program.
ghost use Rattle.std.specs.Prelude.{◌≡◌, ◌≤◌, IfOk, string_bytes};
ghost use Rattle.bs_gen.specs.declared.workload.Workload.TheVariants.{Ring, Stencil, Tree};
ghost use Rattle.bs_gen.specs.Programs.{workload_text};

use crate::Workload;
use std::alloc::{AllocError, Global};

/// The text of the program of this kind with `n` chares, from 1 to 512. The seed, from 0 to 999,999, sets how much the
/// chares work, and the first numbers of a stencil. The only refusal is want of memory.
pub fn generate(alloc: Global, kind: Workload, n: u32, seed: u32) -> Result<Vec<u8>, AllocError>
    requires chares { (1 ≤ n) × (n ≤ 512) }
    requires seed { seed ≤ 999999 }
    ensures { IfOk result (λ text. text.items ≡ workload_text kind n seed) }
{
    let text = match kind {
        Workload::Ring => ring(alloc, n, seed)?,
        Workload::Stencil => stencil(alloc, n, seed)?,
        Workload::Tree => tree(alloc, n, seed)?,
    };
    Ok(text.into_bytes())
}

#[tactic(auto, using(crate::proofs::Cut::ring_cut))]
fn ring(alloc: Global, n: u32, seed: u32) -> Result<String, AllocError>
    ensures { IfOk result (λ text. string_bytes text ≡ workload_text Ring n seed) }
{
    format!(in alloc;
        "chares {n};
var i;
var v;
entry token(1);
body {{
for (i = 0; i < 20; i = i + 1) {{
if (this == 0) {{
serial {{ work (i * 7 + {seed}) % 50; send token[i](i) to (this + 1) % chares; }}
when token[i](v) {{ serial {{ emit v; }} }}
}} else {{
when token[i](v) {{ serial {{ work (this * 7 + {seed}) % 50; send token[i](v + 1) to (this + 1) % chares; }} }}
}}
}}
}}
"
    )
}

#[tactic(auto, using(crate::proofs::Cut::stencil_cut))]
fn stencil(alloc: Global, n: u32, seed: u32) -> Result<String, AllocError>
    ensures { IfOk result (λ text. string_bytes text ≡ workload_text Stencil n seed) }
{
    format!(in alloc;
        "chares {n};
var i;
var a;
var b;
var x;
entry left(1);
entry right(1);
body {{
serial {{ x = this * 3 + {seed}; }}
for (i = 0; i < 20; i = i + 1) {{
serial {{ work (this * 7 + i + {seed}) % 50; \
send left[i](x) to (this + chares - 1) % chares bytes 800; \
send right[i](x) to (this + 1) % chares bytes 800; }}
overlap {{
when left[i](a) {{ serial {{ work 3; }} }}
when right[i](b) {{ serial {{ work 3; }} }}
}}
serial {{ x = (a + b) / 2; }}
}}
serial {{ emit x; }}
}}
"
    )
}

#[tactic(auto, using(crate::proofs::Cut::tree_cut))]
fn tree(alloc: Global, n: u32, seed: u32) -> Result<String, AllocError>
    ensures { IfOk result (λ text. string_bytes text ≡ workload_text Tree n seed) }
{
    format!(in alloc;
        "chares {n};
var a;
var b;
var s;
entry up(1);
body {{
overlap {{
if (2 * this + 1 < chares) {{ when up[0](a) {{ serial {{ work 2; }} }} }}
if (2 * this + 2 < chares) {{ when up[1](b) {{ serial {{ work 2; }} }} }}
}}
serial {{ work (this * 7 + {seed}) % 50; s = a + b + 1; \
if (this > 0) {{ send up[(this + 1) % 2](s) to (this - 1) / 2; }} else {{ emit s; }} }}
}}
"
    )
}
