//! Variables, names, numbers and signs.

use super::Row;

/// Rows of variables, names and numbers.
pub static NAMES: [Row; 12] = [
    ("OVmV", "<?php |$a|=|$_b1\u{e9}"),
    ("OmV", "<?php |$|$a"),
    ("OmNm", "<?php |$|1|$"),
    ("OPBPBP", "<?php |class| |A1_\u{e9}| |_"),
    ("Oq", "<?php |App\\One\\Two"),
    ("Oq", "<?php |\\App"),
    ("Oq", "<?php |namespace\\foo"),
    ("OPm", "<?php |App|\\"),
    ("OPmq", "<?php |App|\\|\\a"),
    ("OqmN", "<?php |App\\A|\\|1"),
    ("OmN", "<?php |\\|1a"),
    ("ONmNmN", "<?php |1|.|5e3|+|0x1F_f"),
];

/// Rows of signs.
pub static SIGNS: [Row; 5] = [
    ("OPMPMVMP", "<?php |A|::|b|->|$c|?->|d"),
    ("OMmMm", "<?php |::|:|->|>"),
    ("OmmmmP", "<?php |?|-|:|-|x"),
    ("OmmC", "<?php |?|-|?>"),
    ("OmmmmBmm", "<?php |{|}|(|)| |@|~"),
];
