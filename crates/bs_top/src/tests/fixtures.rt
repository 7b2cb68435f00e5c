// Programs and machines that several tests perform on.

// Two chares that send to each other. Its size is 14.
pub(super) const EXCHANGE: &str = "chares 2; var x; entry go(1);
body {
  serial { work 3; send go[7](this) to 1 - this; }
  when go[7](x) { serial { work 2; emit x; } }
}
";

// A log of three chares: chare 1 sends a long message to chare 0 and a short one to chare 2, which then
// sends word to chare 1.
pub(super) const CORRECTED: &str = "bslog 1
chares 3 entries 2 rows 4
row 0 6 2 10
mail 2 1
row 1 2 1 2
send 0 0 0 640 1
send 2 0 0 8 2
row 1 4 3 1
after 2
mail 4 1
row 2 6 2 10
mail 2 2
send 1 1 0 0 10
end
";

// Two nodes, on which bytes cost.
pub(super) const BY_BYTES: &str = "[torus]
sizes = [2]
per_node = 1
[place]
kind = \"cycle\"
[speed]
num = 1
den = 1
[latency]
self = 1
local = 1
base = 5
hop = 0
bytes_num = 1
bytes_den = 64
";

// A torus of two by three nodes with slower processors, two on each node.
pub(super) const SLOWER: &str = "[torus]
sizes = [2, 3]
per_node = 2
[place]
kind = \"block\"
[speed]
num = 3
den = 2
[latency]
self = 1
local = 2
base = 4
hop = 3
bytes_num = 1
bytes_den = 8
";
