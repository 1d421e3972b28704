//! The sheet: which class has which colour, on a light page and on a dark one.

/// The sheet of all pictures. The colours of `on-arm` to `lost` are of the palette of Okabe and Ito, which the colour-blind can tell.
pub(crate) const SHEET: &str =
    "text { font-family: Helvetica, Arial, 'Liberation Sans', sans-serif; font-size: 12px; fill: #1f2328; }
.page { fill: #ffffff; }
.name { font-size: 13px; font-weight: bold; }
.small { font-size: 11px; }
.title { font-size: 15px; font-weight: bold; }
.faint { fill: #59636e; }
.state { fill: #e3effc; stroke: #0550ae; stroke-width: 1.5; }
.group { fill: none; stroke: #8c959f; stroke-width: 1.2; stroke-dasharray: 5 4; }
.way { fill: none; stroke: #4d5761; stroke-width: 1.5; }
.same { fill: none; opacity: 0; }
.astray { fill: none; stroke: #b3261e; stroke-width: 1.5; stroke-dasharray: 2 3; }
.tip { fill: #4d5761; }
.dot { fill: #4d5761; }
.ring { fill: none; stroke: #4d5761; stroke-width: 1.5; }
.pill { fill: #ffffff; stroke: #4d5761; stroke-width: 1; }
.grid { stroke: #d1d9e0; stroke-width: 1; }
.in-slot { fill: #d8dee4; }
.on-arm { fill: #56b4e9; }
.at-aligner { fill: #f0e442; }
.in-chamber { fill: #e69f00; }
.at-work { fill: #0072b2; }
.finished { fill: #009e73; }
.unfinished { fill: #cc79a7; }
.lost { fill: #d55e00; }
.down { fill: #1f2328; }
.bar { fill: #eaeef2; stroke: #8c959f; stroke-width: 1; }
.running { fill: #c9def5; stroke: #0550ae; stroke-width: 1; }
.mark { stroke: #1f2328; stroke-width: 1.2; }
.alarm { fill: #d55e00; stroke: #ffffff; stroke-width: 1; }
@media (prefers-color-scheme: dark) {
text { fill: #e6edf3; }
.page { fill: #0d1117; }
.faint { fill: #9da7b3; }
.state { fill: #12263f; stroke: #79c0ff; }
.group { stroke: #7d8590; }
.way, .ring { stroke: #b1bac4; }
.astray { stroke: #ff7b72; }
.tip, .dot { fill: #b1bac4; }
.pill { fill: #0d1117; stroke: #b1bac4; }
.grid { stroke: #2f353d; }
.in-slot { fill: #3d444d; }
.down { fill: #e6edf3; }
.bar { fill: #212830; stroke: #7d8590; }
.running { fill: #143d6b; stroke: #79c0ff; }
.mark { stroke: #e6edf3; }
.alarm { stroke: #0d1117; }
}
";

/// The tip of arrows.
pub(crate) const MARKS: &[u8] =
    b"<defs><marker id=\"tip\" viewBox=\"0 0 10 10\" refX=\"9\" refY=\"5\" markerWidth=\"9\" markerHeight=\"9\" markerUnits=\"userSpaceOnUse\" orient=\"auto\"><polygon class=\"tip\" points=\"0,0.8 10,5 0,9.2\"/></marker></defs>\n";
