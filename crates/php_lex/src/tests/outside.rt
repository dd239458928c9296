//! Text outside code, tags, blanks and comments.

use super::Row;

/// Rows of tags, and text outside code.
pub static TAGS: [Row; 17] = [
    ("", ""),
    ("H", "class A {}"),
    ("O", "<?php"),
    ("O", "<?php "),
    ("O", "<?PhP\n"),
    ("OB", "<?php\r|\n"),
    ("H", "<?phpx"),
    ("H", "<?ph"),
    ("H", "<? echo"),
    ("H", "<"),
    ("OV", "<?=|$a"),
    ("OP", "<?=|php"),
    ("HO", "<<?phpx<|<?php\t"),
    ("HOPmCHOVCH", "a\n|<?php |foo|;|?>|\n<b>|<?=|$x|?>|</b>"),
    ("OCOC", "<?php |?>|<?php |?>"),
    ("OCH", "<?php |?>|<?phpclass A {}"),
    ("HOP", "\u{0}\u{e9}<?php\u{0}|<?php |a"),
];

/// Rows of blanks.
pub static BLANKS: [Row; 3] = [
    ("OB", "<?php | \t\r\n\n"),
    ("Omm", "<?php |\u{b}|\u{c}"),
    ("OmP", "<?php |\u{0}|a"),
];

/// Rows of comments.
pub static COMMENTS: [Row; 23] = [
    ("OcP", "<?php |// class X\n|a"),
    ("OcP", "<?php |// class X\r|a"),
    ("OcBP", "<?php |// x\r|\n|a"),
    ("Oc", "<?php |// x"),
    ("Oc", "<?php |//"),
    ("OcCH", "<?php |// x |?>| class Y"),
    ("OcCH", "<?php |//|?>|x"),
    ("OcCH", "<?php |#|?>|x"),
    ("Oc", "<?php |// a? >b"),
    ("Oc", "<?php |// a?"),
    ("OcP", "<?php |# x\n|a"),
    ("Oc", "<?php |#"),
    ("OmmPmB", "<?php |#|[|Attr|]|\n"),
    ("OcP", "<?php |##[ x\n|a"),
    ("OcP", "<?php |/* ?> class Z {} */|a"),
    ("OcP", "<?php |/**/|a"),
    ("OcP", "<?php |/*/ b */|a"),
    ("OcP", "<?php |/** a ** b **/|a"),
    ("Oc", "<?php |/* b"),
    ("Oc", "<?php |/*"),
    ("Oc", "<?php |/* *"),
    ("Om", "<?php |/"),
    ("ONmN", "<?php |1|/|2"),
];
