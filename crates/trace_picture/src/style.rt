//! The looks of a picture: colours, light and dark by the reader's setting, and the shapes of the signs.

/// The style sheet. All colours stand here, so that each has a dark form.
pub const STYLE: &str = "<style type='text/css'>
text { font-family: 'DejaVu Sans', Verdana, Arial, sans-serif; font-size: 10px; fill: #37414d; }
.page { fill: #ffffff; }
.lane { fill: #f5f7f9; }
.band { fill: #2f6fb3; fill-opacity: 0; }
.edge { stroke: #dbe0e6; stroke-width: 1; }
.grid { stroke: #e8ebf0; stroke-width: 1; pointer-events: none; }
.join { stroke: #8b97a8; stroke-width: 1; pointer-events: none; }
.gone { stroke: #b3261e; stroke-width: 1.5; stroke-dasharray: 5,3; pointer-events: none; }
.transfer { fill: #cfe0f4; }
.callback { fill: #e7dff4; }
.order { fill: #f6e3ba; }
.event { fill: #cfe7d6; }
.places { fill: #c6d0dc; }
.name { font-size: 13px; font-weight: bold; fill: #222a33; }
.kind { fill: #37414d; }
.hint { font-size: 9px; fill: #6d7886; }
.number { text-anchor: middle; fill: #6d7886; }
.verb { text-anchor: middle; }
.objects { font-size: 9px; fill: #525d6b; text-anchor: middle; }
.outcome { font-size: 9px; fill: #7a8594; text-anchor: middle; }
.refused { font-size: 9px; fill: #b3261e; text-anchor: middle; }
.label, .left { font-size: 9px; }
.slim { font-size: 8px; }
.left { text-anchor: end; }
.detail { font-size: 9px; fill: #6d7886; }
.count { font-size: 8px; fill: #7a8594; }
.full { font-size: 8px; font-weight: bold; fill: #b3261e; }
.fill-blue { fill: #2f5d9b; }
.fill-teal { fill: #3b7a78; }
.fill-ink { fill: #37414d; }
.fill-grey { fill: #66707d; }
.fill-green { fill: #2e7d46; }
.fill-red { fill: #b3261e; }
.fill-violet { fill: #6a4fa3; }
.fill-orange { fill: #c26508; }
.fill-brown { fill: #5b4037; }
.fill-pink { fill: #a31f63; }
.open-ink { fill: #ffffff; stroke: #37414d; }
.open-grey { fill: #ffffff; stroke: #7a8594; }
.open-blue { fill: #ffffff; stroke: #2f5d9b; }
.open-orange { fill: #ffffff; stroke: #b8600b; }
.open-red { fill: #ffffff; stroke: #b3261e; }
.line-red { fill: none; stroke: #b3261e; }
.line-green { fill: none; stroke: #2e7d46; }
.glyph { fill: none; stroke: #ffffff; }
.lit .number { font-weight: bold; fill: #1d5a9c; }
.band.lit { fill-opacity: 0.14; }
@media (prefers-color-scheme: dark) {
text { fill: #cdd5df; }
.page { fill: #14181d; }
.lane { fill: #1b2027; }
.band { fill: #6fb1ff; }
.edge { stroke: #2d343d; }
.grid { stroke: #262d35; }
.join { stroke: #7b8798; }
.gone { stroke: #ff7b72; }
.transfer { fill: #234469; }
.callback { fill: #41355f; }
.order { fill: #55431b; }
.event { fill: #234a31; }
.places { fill: #3d4957; }
.name { fill: #eef2f6; }
.kind { fill: #cdd5df; }
.hint { fill: #8d99a8; }
.number { fill: #8d99a8; }
.objects { fill: #aab4c0; }
.outcome { fill: #8d99a8; }
.refused { fill: #ff8a80; }
.detail { fill: #97a3b1; }
.count { fill: #8d99a8; }
.full { fill: #ff8a80; }
.fill-blue { fill: #6ea8f0; }
.fill-teal { fill: #5fb8b4; }
.fill-ink { fill: #d3dae3; }
.fill-grey { fill: #8d98a6; }
.fill-green { fill: #56b577; }
.fill-red { fill: #ff7b72; }
.fill-violet { fill: #ab92ea; }
.fill-orange { fill: #ec9440; }
.fill-brown { fill: #c09a8b; }
.fill-pink { fill: #ea72ae; }
.open-ink { fill: #14181d; stroke: #d3dae3; }
.open-grey { fill: #14181d; stroke: #8d98a6; }
.open-blue { fill: #14181d; stroke: #6ea8f0; }
.open-orange { fill: #14181d; stroke: #ec9440; }
.open-red { fill: #14181d; stroke: #ff7b72; }
.line-red { stroke: #ff7b72; }
.line-green { stroke: #56b577; }
.glyph { stroke: #14181d; }
.lit .number { fill: #8cc2ff; }
.band.lit { fill-opacity: 0.16; }
}
</style>
";

/// The shapes, each round its own middle.
pub const SHAPES: &str = "<defs>
<path id='submission' class='fill-blue' d='M-4,-5 L6,0 L-4,5 Z'/>
<circle id='arrival' class='fill-blue' r='3'/>
<rect id='packet' class='fill-teal' x='-4.5' y='-4.5' width='9' height='9'/>
<rect id='nak' class='open-grey' x='-4' y='-4' width='8' height='8' stroke-width='1.3'/>
<path id='ended' class='fill-ink' d='M0,-6.5 L6.5,0 L0,6.5 L-6.5,0 Z'/>
<circle id='call' class='open-ink' r='4' stroke-width='1.4'/>
<path id='ask' class='open-orange' d='M-4.5,-4.5 L4.5,-4.5 L0,5 Z' stroke-width='1.6'/>
<path id='verdict' class='open-blue' d='M4,-5 L-6,0 L4,5 Z' stroke-width='1.4'/>
<path id='refusal' class='line-red' d='M-4,-4 L4,4 M-4,4 L4,-4' stroke-width='2.2'/>
<circle id='idle' class='open-grey' r='2.5' stroke-width='1'/>
<g id='success'><circle class='fill-grey' r='5.5'/><path class='glyph' d='M-2.5,0.2 L-0.8,2.1 L2.7,-2' stroke-width='1.5'/></g>
<g id='failure'><circle class='open-red' r='5.5' stroke-width='1.4'/><path class='line-red' d='M-2.2,-2.2 L2.2,2.2 M-2.2,2.2 L2.2,-2.2' stroke-width='1.5'/></g>
<path id='finished' class='fill-green' d='M0,-5.5 L5.5,0 L0,5.5 L-5.5,0 Z'/>
<path id='paused' class='line-green' d='M-3,-4.5 L-3,4.5 M3,-4.5 L3,4.5' stroke-width='2.6'/>
<path id='unplug' class='fill-red' d='M2,-8 L-5,1.5 L-0.5,1.5 L-2,8 L5,-2 L0.5,-2 Z'/>
<g id='completed'><circle class='fill-green' r='7'/><path class='glyph' d='M-3.3,0.2 L-1,2.8 L3.5,-2.7' stroke-width='1.8'/></g>
<g id='error'><circle class='fill-red' r='7'/><path class='glyph' d='M0,-4.2 L0,1.2 M0,2.8 L0,4.4' stroke-width='2'/></g>
<g id='timed-out'><circle class='fill-violet' r='7'/><path class='glyph' d='M0,-4.4 L0,0.4 L3.2,2.2' stroke-width='1.6'/></g>
<g id='cancelled'><circle class='fill-grey' r='7'/><path class='glyph' d='M-2.8,-2.8 L2.8,2.8 M-2.8,2.8 L2.8,-2.8' stroke-width='1.8'/></g>
<g id='stall'><circle class='fill-orange' r='7'/><path class='glyph' d='M-3.8,0 L3.8,0' stroke-width='2.6'/></g>
<g id='no-device'><circle class='fill-brown' r='7'/><circle class='glyph' r='3.4' stroke-width='1.4'/><path class='glyph' d='M-2.4,2.4 L2.4,-2.4' stroke-width='1.4'/></g>
<g id='overflow'><circle class='fill-pink' r='7'/><path class='glyph' d='M0,4.2 L0,-3.4 M-3,-0.6 L0,-3.8 L3,-0.6' stroke-width='1.6'/></g>
</defs>
";
