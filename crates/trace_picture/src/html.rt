//! A page of HTML: a picture, and the steps below it.

use crate::column::Column;
use crate::look::{LOOK, SCRIPT};
use crate::picture::Picture;
use std::alloc::{AllocError, Global};

/// What stands in front of the picture, behind the style sheet.
const ABOVE: &str = "</head>
<body>
<div id='picture'>
";

/// What stands between the picture and the steps.
const BETWEEN: &str = "</div>
<div id='steps'>
<table>
<thead><tr><th>line</th><th>scenario</th><th>entry</th></tr></thead>
<tbody>
";

/// What stands behind the steps, in front of the script.
const BELOW: &str = "</tbody>
</table>
</div>
";

/// The page of a picture, whose SVG document is this.
pub fn document(alloc: Global, picture: &Picture, svg: &str) -> Result<String, AllocError> {
    let mut page = String::new(alloc);
    for piece in [LOOK, ABOVE, svg, BETWEEN] {
        page.push_str(piece)?;
    }
    let mut number = 0u64;
    for column in picture.columns.iter() {
        number = number.saturating_add(1);
        step(&mut page, number, column)?;
    }
    for piece in [BELOW, SCRIPT] {
        page.push_str(piece)?;
    }
    Ok(page)
}

/// The line of the step of this number.
fn step(page: &mut String, number: u64, column: &Column) -> Result<(), AllocError> {
    let line = column.line;
    write!(page, "<tr id='l{number}' tabindex='0'><td>{line}</td><td>")?;
    page.push_str(column.text.as_str())?;
    page.push_str("</td><td>")?;
    page.push_str(column.entry.as_str())?;
    page.push_str("</td></tr>\n")
}
