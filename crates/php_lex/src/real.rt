// Three real files, with what PHP's own tokenizer makes of them. vectors/php_lexemes.php prints the rows, and says which
// files they are and under which licence they stand.
use super::*;
use crate::tests::letter;
use std::test::*;

/// A file, the number of its lexemes, and a checksum of their kinds and lengths.
struct Real {
    text: &'static str,
    count: u64,
    sum: u64,
}

const FILES: [Real; 3] = [
    // Composer/Command/AboutCommand.php
    Real {
        text: "<?php declare(strict_types=1);\n\n/*\n * This file is part of Composer.\n *\n * (c) Nils Adermann <naderman@naderman.de>\n *     Jordi Boggiano <j.boggiano@seld.be>\n *\n * For the full copyright and license information, please view the LICENSE\n * file that was distributed with this source code.\n */\n\nnamespace Composer\\Command;\n\nuse Composer\\Composer;\nuse Symfony\\Component\\Console\\Input\\InputInterface;\nuse Symfony\\Component\\Console\\Output\\OutputInterface;\n\n/**\n * @author Jordi Boggiano <j.boggiano@seld.be>\n */\nclass AboutCommand extends BaseCommand\n{\n    protected function configure(): void\n    {\n        $this\n            ->setName('about')\n            ->setDescription('Shows a short information about Composer')\n            ->setHelp(\n                <<<EOT\n<info>php composer.phar about</info>\nEOT\n            )\n        ;\n    }\n\n    protected function execute(InputInterface $input, OutputInterface $output): int\n    {\n        $composerVersion = Composer::getVersion();\n\n        $this->getIO()->write(\n            <<<EOT\n<info>Composer - Dependency Manager for PHP - version $composerVersion</info>\n<comment>Composer is a dependency manager tracking local dependencies of your projects and libraries.\nSee https://getcomposer.org/ for more information.</comment>\nEOT\n        );\n\n        return 0;\n    }\n}\n",
        count: 137,
        sum: 922285050,
    },
    // Symfony/Component/Process/Exception/ProcessFailedException.php
    Real {
        text: "<?php\n\n/*\n * This file is part of the Symfony package.\n *\n * (c) Fabien Potencier <fabien@symfony.com>\n *\n * For the full copyright and license information, please view the LICENSE\n * file that was distributed with this source code.\n */\n\nnamespace Symfony\\Component\\Process\\Exception;\n\nuse Symfony\\Component\\Process\\Process;\n\n/**\n * Exception for failed processes.\n *\n * @author Johannes M. Schmitt <schmittjoh@gmail.com>\n */\nclass ProcessFailedException extends RuntimeException\n{\n    private $process;\n\n    public function __construct(Process $process)\n    {\n        if ($process->isSuccessful()) {\n            throw new InvalidArgumentException('Expected a failed process, but the given process was successful.');\n        }\n\n        $error = sprintf('The command \"%s\" failed.'.\"\\n\\nExit Code: %s(%s)\\n\\nWorking directory: %s\",\n            $process->getCommandLine(),\n            $process->getExitCode(),\n            $process->getExitCodeText(),\n            $process->getWorkingDirectory()\n        );\n\n        if (!$process->isOutputDisabled()) {\n            $error .= sprintf(\"\\n\\nOutput:\\n================\\n%s\\n\\nError Output:\\n================\\n%s\",\n                $process->getOutput(),\n                $process->getErrorOutput()\n            );\n        }\n\n        parent::__construct($error);\n\n        $this->process = $process;\n    }\n\n    public function getProcess()\n    {\n        return $this->process;\n    }\n}\n",
        count: 190,
        sum: 2358251038,
    },
    // JsonSchema/Exception/JsonDecodingException.php
    Real {
        text: "<?php\n\n/*\n * This file is part of the JsonSchema package.\n *\n * For the full copyright and license information, please view the LICENSE\n * file that was distributed with this source code.\n */\n\nnamespace JsonSchema\\Exception;\n\n/**\n * Wrapper for the JsonDecodingException\n */\nclass JsonDecodingException extends RuntimeException\n{\n    public function __construct($code = JSON_ERROR_NONE, \\Exception $previous = null)\n    {\n        switch ($code) {\n            case JSON_ERROR_DEPTH:\n                $message = 'The maximum stack depth has been exceeded';\n                break;\n            case JSON_ERROR_STATE_MISMATCH:\n                $message = 'Invalid or malformed JSON';\n                break;\n            case JSON_ERROR_CTRL_CHAR:\n                $message = 'Control character error, possibly incorrectly encoded';\n                break;\n            case JSON_ERROR_UTF8:\n                $message = 'Malformed UTF-8 characters, possibly incorrectly encoded';\n                break;\n            case JSON_ERROR_SYNTAX:\n                $message = 'JSON syntax is malformed';\n                break;\n            default:\n                $message = 'Syntax error';\n        }\n        parent::__construct($message, $code, $previous);\n    }\n}\n",
        count: 158,
        sum: 787351353,
    },
];

// The checksum with one number more.
fn summed(sum: u64, more: u64) -> u64 {
    sum.wrapping_mul(31).wrapping_add(more) % 4_294_967_296
}

// The number of a text's lexemes, and the checksum.
fn counted(text: &[u8]) -> (u64, u64) {
    let mut lexer = Lexer::new(text);
    let mut count = 0u64;
    let mut sum = 0u64;
    for _ in 0..u64::MAX {
        let Some(lexeme) = lexer.next() else {
            break;
        };
        count = count.wrapping_add(1);
        sum = summed(sum, u64::from(letter(lexeme.kind)));
        sum = summed(sum, lexeme.bytes.len() as u64);
    }
    (count, sum)
}

#[test]
fn real_files(rt: HostRuntime) -> Result<(), Fail> {
    for file in &FILES {
        let (count, sum) = counted(file.text.as_bytes());
        assert_eq!(rt; count, file.count);
        assert_eq!(rt; sum, file.sum);
    }
    Ok(())
}
