//! The style sheet of the picture, for a light and a dark page.

/// The style sheet, whose classes are those of the picture alone. On a narrow page letters are
/// larger, and the rows don't say how many values they have.
pub const STYLE: &str = "<style>
.curves text{font:14px system-ui,sans-serif;fill:#1f2328}
.curves .h{font-size:16px;font-weight:600}
.curves .m{font-size:13px;font-weight:400;fill:#59636e}
.curves .n{font-weight:600}
.curves .e{text-anchor:end}
.curves .c{text-anchor:middle}
.curves .k{fill:#fff;stroke:#d1d9e0}
.curves .g{stroke:#d1d9e0;fill:none}
.curves .b{stroke:#818b98;fill:none}
.curves .l{stroke:#d1242f;stroke-opacity:.18;stroke-width:64;fill:none}
.curves .o{stroke:#d1242f;stroke-opacity:.7;stroke-width:64;fill:none}
.curves .t{fill:#d1242f}
.curves .v{stroke:#1f68c4;stroke-width:1.5;stroke-linejoin:round;stroke-linecap:round;fill:none}
.curves .p{stroke:#1f68c4;stroke-width:5;stroke-linecap:round;fill:none}
@media(prefers-color-scheme:dark){
.curves text{fill:#f0f6fc}
.curves .m{fill:#9198a1}
.curves .k{fill:#0d1117;stroke:#3d444d}
.curves .g{stroke:#2f363e}
.curves .b{stroke:#818b98}
.curves .l{stroke:#ff5c57;stroke-opacity:.3}
.curves .o{stroke:#ff5c57}
.curves .t{fill:#ff5c57}
.curves .v,.curves .p{stroke:#58a6ff}
}
@media(max-width:560px){
.curves text{font-size:18px}
.curves .h{font-size:20px}
.curves .m{font-size:16px}
.curves .w{display:none}
}
</style>
";
