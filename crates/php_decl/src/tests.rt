use super::*;
use path_name::Name;
use std::test::*;

/// A file, and the names that it declares, each with a blank behind it.
struct Row {
    text: &'static str,
    names: &'static str,
}

const ROWS: [Row; 62] = [
    Row {
        text: "<?php\nnamespace App;\n#[Attr]\nfinal class One { function f() { return Foo::class; } }\n$x = new class extends B {};\n$s = <<<EOT\n  class No {}\n  EOT;\n$t = \"{$a[\"class X\"]}\";\n// class Y ?> class Html <?php\nenum E: string {}\nclass Enum extends B {}\ninterface I {}\n",
        names: "App\\One App\\E App\\Enum App\\I ",
    },
    Row {
        text: "<?php class A {} /* class B {}",
        names: "A ",
    },
    Row {
        text: "<?php class A {} $x = \"class B {}",
        names: "A ",
    },
    Row {
        text: "",
        names: "",
    },
    Row {
        text: "class A {}",
        names: "",
    },
    Row {
        text: "<?php class A {} interface B {} trait C {} enum D {}",
        names: "A B C D ",
    },
    Row {
        text: "<?php CLASS A {} Interface B {} tRAIT C {} ENUM D {}",
        names: "A B C D ",
    },
    Row {
        text: "<?php class/* x */A{}",
        names: "A ",
    },
    Row {
        text: "<?php class # x\n A // y\n {}",
        names: "A ",
    },
    Row {
        text: "<?php abstract class A {} final readonly class B {} readonly final class C {}",
        names: "A B C ",
    },
    Row {
        text: "<?php enum Suit: string implements HasLabel { case A = 'a'; }",
        names: "Suit ",
    },
    Row {
        text: "<?php enum Suit implements I {}",
        names: "Suit ",
    },
    Row {
        text: "<?php #[A(B::class)] class C {}",
        names: "C ",
    },
    Row {
        text: "<?php #[Attribute] #[Other] enum D {}",
        names: "D ",
    },
    Row {
        text: "<?php $x = new class {};",
        names: "",
    },
    Row {
        text: "<?php $x = new class(1) extends B {};",
        names: "",
    },
    Row {
        text: "<?php $x = new class implements I {};",
        names: "",
    },
    Row {
        text: "<?php $x = new readonly class {};",
        names: "",
    },
    Row {
        text: "<?php echo Foo::class; class B {}",
        names: "B ",
    },
    Row {
        text: "<?php echo Foo::class Bar;",
        names: "",
    },
    Row {
        text: "<?php $x->class Foo; $x?->class Bar; A::enum Baz;",
        names: "",
    },
    Row {
        text: "<?php class A { const ENUM = 1, TRAIT = 2; function class() {} function enum() {} }",
        names: "A ",
    },
    Row {
        text: "<?php class A { public $class; function f() { $this->class = 1; } }",
        names: "A ",
    },
    Row {
        text: "<?php function enum() {} enum('x'); class A {}",
        names: "A ",
    },
    Row {
        text: "<?php class Enum extends B {} class Trait_ {}",
        names: "Enum Trait_ ",
    },
    Row {
        text: "<?php class Interface_ implements B {}",
        names: "Interface_ ",
    },
    Row {
        text: "<?php enum extends {}",
        names: "",
    },
    Row {
        text: "<?php class extends B {} class implements C {}",
        names: "",
    },
    Row {
        text: "<?php class EXTENDS B {}",
        names: "",
    },
    Row {
        text: "<?php namespace App; class A {}",
        names: "App\\A ",
    },
    Row {
        text: "<?php namespace App\\Sub; class A {} interface B {}",
        names: "App\\Sub\\A App\\Sub\\B ",
    },
    Row {
        text: "<?php namespace A; class X {} namespace B; class Y {}",
        names: "A\\X B\\Y ",
    },
    Row {
        text: "<?php namespace A { class X {} } namespace B\\C { class Y {} } namespace { class Z {} }",
        names: "A\\X B\\C\\Y Z ",
    },
    Row {
        text: "<?php NameSpace App ; class A {}",
        names: "App\\A ",
    },
    Row {
        text: "<?php namespace /* c */ App /* d */ ; class A {}",
        names: "App\\A ",
    },
    Row {
        text: "<?php namespace App; namespace\\foo(); class A {}",
        names: "App\\A ",
    },
    Row {
        text: "<?php namespace App; $x = namespace\\B::class; class A {}",
        names: "App\\A ",
    },
    Row {
        text: "<?php namespace App; namespace \\Foo; class A {}",
        names: "App\\A ",
    },
    Row {
        text: "<?php namespace App; namespace Foo + 1; class A {}",
        names: "App\\A ",
    },
    Row {
        text: "<?php namespace App; $x->namespace B; class A {}",
        names: "App\\A ",
    },
    Row {
        text: "<?php namespace App; A::namespace { class B {} }",
        names: "App\\B ",
    },
    Row {
        text: "<?php namespace class; class A {}",
        names: "class\\A ",
    },
    Row {
        text: "<?php namespace namespace; class A {}",
        names: "namespace\\A ",
    },
    Row {
        text: "<?php namespace namespace { class A {} }",
        names: "A ",
    },
    Row {
        text: "<?php class A {} __halt_compiler(); class B {}",
        names: "A ",
    },
    Row {
        text: "<?php class A {} __HALT_COMPILER ; class B {}",
        names: "A ",
    },
    Row {
        text: "<?php $x->__halt_compiler(); class B {}",
        names: "B ",
    },
    Row {
        text: "<?php class __halt_compiler {} class B {}",
        names: "__halt_compiler ",
    },
    Row {
        text: "<?php class A {} ?> class B {} <?php class C {}",
        names: "A C ",
    },
    Row {
        text: "<?php class A {} ?> <?= class_exists('B') ?>",
        names: "A ",
    },
    Row {
        text: "<?php class ?> x <?php A {}",
        names: "",
    },
    Row {
        text: "<?php class A1_\u{e9} {}",
        names: "A1_\u{e9} ",
    },
    Row {
        text: "<?php class A\\B {}",
        names: "",
    },
    Row {
        text: "<?php class \\B {}",
        names: "",
    },
    Row {
        text: "<?php class $b {}",
        names: "",
    },
    Row {
        text: "<?php class",
        names: "",
    },
    Row {
        text: "<?php namespace",
        names: "",
    },
    Row {
        text: "<?php namespace App",
        names: "",
    },
    Row {
        text: "<?php use App\\Enum; use function App\\trait_; class A { use T; }",
        names: "A ",
    },
    Row {
        text: "<?php $f = static fn (int $x): int => match (true) { default => $x }; class A {}",
        names: "A ",
    },
    Row {
        text: "<?php if (!class_exists('A')) { class A {} }",
        names: "A ",
    },
    Row {
        text: "<?php $s = 'class X'; $t = `class Y`; $u = <<<'Z'\nclass Z {}\nZ; class A {}",
        names: "A ",
    },
];

// The names, each with a blank behind it.
pub(crate) fn text_of(rt: &impl AllocGlobal, names: &Vec<Name>) -> Result<Vec<u8>, Fail> {
    let mut shown = Vec::new(rt.alloc());
    for name in names {
        shown.extend_from_slice(name.as_slice())?;
        shown.push(b' ')?;
    }
    Ok(shown)
}

#[test]
fn scanner(rt: HostRuntime) -> Result<(), Fail> {
    for row in &ROWS {
        let names = declared(rt.alloc(), row.text.as_bytes())?;
        let shown = text_of(&rt, &names)?;
        assert_eq!(rt; shown.as_slice(), row.names.as_bytes());
    }
    Ok(())
}

#[test]
fn plain_form(rt: HostRuntime) -> Result<(), Fail> {
    for row in &ROWS {
        let names = declared_plainly(rt.alloc(), row.text.as_bytes())?;
        let shown = text_of(&rt, &names)?;
        assert_eq!(rt; shown.as_slice(), row.names.as_bytes());
    }
    Ok(())
}
