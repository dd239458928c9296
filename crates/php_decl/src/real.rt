// Twenty real files, with the names that PHP and Composer find in them. vectors/php_names.php prints the rows, and says
// which files they are and under which licence they stand.
use super::*;
use crate::tests::text_of;
use std::test::*;

/// A file, and the names that it declares, each with a blank behind it.
struct Real {
    text: &'static str,
    names: &'static str,
}

const FILES: [Real; 20] = [
    // Psr/Log/LoggerAwareInterface.php
    Real {
        text: "<?php\n\nnamespace Psr\\Log;\n\n/**\n * Describes a logger-aware instance.\n */\ninterface LoggerAwareInterface\n{\n    /**\n     * Sets a logger instance on the object.\n     *\n     * @param LoggerInterface $logger\n     *\n     * @return void\n     */\n    public function setLogger(LoggerInterface $logger);\n}\n",
        names: "Psr\\Log\\LoggerAwareInterface ",
    },
    // Psr/Log/LoggerAwareTrait.php
    Real {
        text: "<?php\n\nnamespace Psr\\Log;\n\n/**\n * Basic Implementation of LoggerAwareInterface.\n */\ntrait LoggerAwareTrait\n{\n    /**\n     * The logger instance.\n     *\n     * @var LoggerInterface|null\n     */\n    protected $logger;\n\n    /**\n     * Sets a logger.\n     *\n     * @param LoggerInterface $logger\n     */\n    public function setLogger(LoggerInterface $logger)\n    {\n        $this->logger = $logger;\n    }\n}\n",
        names: "Psr\\Log\\LoggerAwareTrait ",
    },
    // Psr/Log/NullLogger.php
    Real {
        text: "<?php\n\nnamespace Psr\\Log;\n\n/**\n * This Logger can be used to avoid conditional log calls.\n *\n * Logging should always be optional, and if no logger is provided to your\n * library creating a NullLogger instance to have something to throw logs at\n * is a good way to avoid littering your code with `if ($this->logger) { }`\n * blocks.\n */\nclass NullLogger extends AbstractLogger\n{\n    /**\n     * Logs with an arbitrary level.\n     *\n     * @param mixed  $level\n     * @param string $message\n     * @param array  $context\n     *\n     * @return void\n     *\n     * @throws \\Psr\\Log\\InvalidArgumentException\n     */\n    public function log($level, $message, array $context = array())\n    {\n        // noop\n    }\n}\n",
        names: "Psr\\Log\\NullLogger ",
    },
    // Psr/Log/LogLevel.php
    Real {
        text: "<?php\n\nnamespace Psr\\Log;\n\n/**\n * Describes log levels.\n */\nclass LogLevel\n{\n    const EMERGENCY = 'emergency';\n    const ALERT     = 'alert';\n    const CRITICAL  = 'critical';\n    const ERROR     = 'error';\n    const WARNING   = 'warning';\n    const NOTICE    = 'notice';\n    const INFO      = 'info';\n    const DEBUG     = 'debug';\n}\n",
        names: "Psr\\Log\\LogLevel ",
    },
    // Symfony/Component/Console/CommandLoader/FactoryCommandLoader.php
    Real {
        text: "<?php\n\n/*\n * This file is part of the Symfony package.\n *\n * (c) Fabien Potencier <fabien@symfony.com>\n *\n * For the full copyright and license information, please view the LICENSE\n * file that was distributed with this source code.\n */\n\nnamespace Symfony\\Component\\Console\\CommandLoader;\n\nuse Symfony\\Component\\Console\\Exception\\CommandNotFoundException;\n\n/**\n * A simple command loader using factories to instantiate commands lazily.\n *\n * @author Maxime Steinhausser <maxime.steinhausser@gmail.com>\n */\nclass FactoryCommandLoader implements CommandLoaderInterface\n{\n    private $factories;\n\n    /**\n     * @param callable[] $factories Indexed by command names\n     */\n    public function __construct(array $factories)\n    {\n        $this->factories = $factories;\n    }\n\n    /**\n     * {@inheritdoc}\n     */\n    public function has(string $name)\n    {\n        return isset($this->factories[$name]);\n    }\n\n    /**\n     * {@inheritdoc}\n     */\n    public function get(string $name)\n    {\n        if (!isset($this->factories[$name])) {\n            throw new CommandNotFoundException(sprintf('Command \"%s\" does not exist.', $name));\n        }\n\n        $factory = $this->factories[$name];\n\n        return $factory();\n    }\n\n    /**\n     * {@inheritdoc}\n     */\n    public function getNames()\n    {\n        return array_keys($this->factories);\n    }\n}\n",
        names: "Symfony\\Component\\Console\\CommandLoader\\FactoryCommandLoader ",
    },
    // Psr/Container/NotFoundExceptionInterface.php
    Real {
        text: "<?php\n\nnamespace Psr\\Container;\n\n/**\n * No entry was found in the container.\n */\ninterface NotFoundExceptionInterface extends ContainerExceptionInterface\n{\n}\n",
        names: "Psr\\Container\\NotFoundExceptionInterface ",
    },
    // React/Promise/CancellablePromiseInterface.php
    Real {
        text: "<?php\n\nnamespace React\\Promise;\n\ninterface CancellablePromiseInterface extends PromiseInterface\n{\n    /**\n     * The `cancel()` method notifies the creator of the promise that there is no\n     * further interest in the results of the operation.\n     *\n     * Once a promise is settled (either fulfilled or rejected), calling `cancel()` on\n     * a promise has no effect.\n     *\n     * @return void\n     */\n    public function cancel();\n}\n",
        names: "React\\Promise\\CancellablePromiseInterface ",
    },
    // React/Promise/UnhandledRejectionException.php
    Real {
        text: "<?php\n\nnamespace React\\Promise;\n\nclass UnhandledRejectionException extends \\RuntimeException\n{\n    private $reason;\n\n    public static function resolve($reason)\n    {\n        if ($reason instanceof \\Exception || $reason instanceof \\Throwable) {\n            return $reason;\n        }\n\n        return new static($reason);\n    }\n\n    public function __construct($reason)\n    {\n        $this->reason = $reason;\n\n        $message = \\sprintf('Unhandled Rejection: %s', \\json_encode($reason));\n\n        parent::__construct($message, 0);\n    }\n\n    public function getReason()\n    {\n        return $this->reason;\n    }\n}\n",
        names: "React\\Promise\\UnhandledRejectionException ",
    },
    // React/Promise/functions_include.php
    Real {
        text: "<?php\n\nif (!\\function_exists('React\\Promise\\resolve')) {\n    require __DIR__.'/functions.php';\n}\n",
        names: "",
    },
    // JsonSchema/Exception/InvalidConfigException.php
    Real {
        text: "<?php\n\n/*\n * This file is part of the JsonSchema package.\n *\n * For the full copyright and license information, please view the LICENSE\n * file that was distributed with this source code.\n */\n\nnamespace JsonSchema\\Exception;\n\n/**\n * Wrapper for the ResourceNotFoundException\n */\nclass InvalidConfigException extends RuntimeException\n{\n}\n",
        names: "JsonSchema\\Exception\\InvalidConfigException ",
    },
    // JsonSchema/Constraints/TypeCheck/TypeCheckInterface.php
    Real {
        text: "<?php\n\nnamespace JsonSchema\\Constraints\\TypeCheck;\n\ninterface TypeCheckInterface\n{\n    public static function isObject($value);\n\n    public static function isArray($value);\n\n    public static function propertyGet($value, $property);\n\n    public static function propertySet(&$value, $property, $data);\n\n    public static function propertyExists($value, $property);\n\n    public static function propertyCount($value);\n}\n",
        names: "JsonSchema\\Constraints\\TypeCheck\\TypeCheckInterface ",
    },
    // Composer/Pcre/MatchResult.php
    Real {
        text: "<?php\n\n/*\n * This file is part of composer/pcre.\n *\n * (c) Composer <https://github.com/composer>\n *\n * For the full copyright and license information, please view\n * the LICENSE file that was distributed with this source code.\n */\n\nnamespace Composer\\Pcre;\n\nfinal class MatchResult\n{\n    /**\n     * An array of match group => string matched\n     *\n     * @readonly\n     * @var array<int|string, string|null>\n     */\n    public $matches;\n\n    /**\n     * @readonly\n     * @var bool\n     */\n    public $matched;\n\n    /**\n     * @param 0|positive-int $count\n     * @param array<string|null> $matches\n     */\n    public function __construct(int $count, array $matches)\n    {\n        $this->matches = $matches;\n        $this->matched = (bool) $count;\n    }\n}\n",
        names: "Composer\\Pcre\\MatchResult ",
    },
    // Composer/Pcre/UnexpectedNullMatchException.php
    Real {
        text: "<?php\n\n/*\n * This file is part of composer/pcre.\n *\n * (c) Composer <https://github.com/composer>\n *\n * For the full copyright and license information, please view\n * the LICENSE file that was distributed with this source code.\n */\n\nnamespace Composer\\Pcre;\n\nclass UnexpectedNullMatchException extends PcreException\n{\n    public static function fromFunction($function, $pattern)\n    {\n        throw new \\LogicException('fromFunction should not be called on '.self::class.', use '.PcreException::class);\n    }\n}\n",
        names: "Composer\\Pcre\\UnexpectedNullMatchException ",
    },
    // Symfony/Component/Console/Helper/TableSeparator.php
    Real {
        text: "<?php\n\n/*\n * This file is part of the Symfony package.\n *\n * (c) Fabien Potencier <fabien@symfony.com>\n *\n * For the full copyright and license information, please view the LICENSE\n * file that was distributed with this source code.\n */\n\nnamespace Symfony\\Component\\Console\\Helper;\n\n/**\n * Marks a row as being a separator.\n *\n * @author Fabien Potencier <fabien@symfony.com>\n */\nclass TableSeparator extends TableCell\n{\n    public function __construct(array $options = [])\n    {\n        parent::__construct('', $options);\n    }\n}\n",
        names: "Symfony\\Component\\Console\\Helper\\TableSeparator ",
    },
    // Symfony/Component/Console/Command/SignalableCommandInterface.php
    Real {
        text: "<?php\n\n/*\n * This file is part of the Symfony package.\n *\n * (c) Fabien Potencier <fabien@symfony.com>\n *\n * For the full copyright and license information, please view the LICENSE\n * file that was distributed with this source code.\n */\n\nnamespace Symfony\\Component\\Console\\Command;\n\n/**\n * Interface for command reacting to signal.\n *\n * @author Grégoire Pineau <lyrixx@lyrix.info>\n */\ninterface SignalableCommandInterface\n{\n    /**\n     * Returns the list of signals to subscribe.\n     */\n    public function getSubscribedSignals(): array;\n\n    /**\n     * The method will be called when the application is signaled.\n     */\n    public function handleSignal(int $signal): void;\n}\n",
        names: "Symfony\\Component\\Console\\Command\\SignalableCommandInterface ",
    },
    // Composer/Command/AboutCommand.php
    Real {
        text: "<?php declare(strict_types=1);\n\n/*\n * This file is part of Composer.\n *\n * (c) Nils Adermann <naderman@naderman.de>\n *     Jordi Boggiano <j.boggiano@seld.be>\n *\n * For the full copyright and license information, please view the LICENSE\n * file that was distributed with this source code.\n */\n\nnamespace Composer\\Command;\n\nuse Composer\\Composer;\nuse Symfony\\Component\\Console\\Input\\InputInterface;\nuse Symfony\\Component\\Console\\Output\\OutputInterface;\n\n/**\n * @author Jordi Boggiano <j.boggiano@seld.be>\n */\nclass AboutCommand extends BaseCommand\n{\n    protected function configure(): void\n    {\n        $this\n            ->setName('about')\n            ->setDescription('Shows a short information about Composer')\n            ->setHelp(\n                <<<EOT\n<info>php composer.phar about</info>\nEOT\n            )\n        ;\n    }\n\n    protected function execute(InputInterface $input, OutputInterface $output): int\n    {\n        $composerVersion = Composer::getVersion();\n\n        $this->getIO()->write(\n            <<<EOT\n<info>Composer - Dependency Manager for PHP - version $composerVersion</info>\n<comment>Composer is a dependency manager tracking local dependencies of your projects and libraries.\nSee https://getcomposer.org/ for more information.</comment>\nEOT\n        );\n\n        return 0;\n    }\n}\n",
        names: "Composer\\Command\\AboutCommand ",
    },
    // Symfony/Component/String/Resources/functions.php
    Real {
        text: "<?php\n\n/*\n * This file is part of the Symfony package.\n *\n * (c) Fabien Potencier <fabien@symfony.com>\n *\n * For the full copyright and license information, please view the LICENSE\n * file that was distributed with this source code.\n */\n\nnamespace Symfony\\Component\\String;\n\nif (!\\function_exists(u::class)) {\n    function u(?string $string = ''): UnicodeString\n    {\n        return new UnicodeString($string ?? '');\n    }\n}\n\nif (!\\function_exists(b::class)) {\n    function b(?string $string = ''): ByteString\n    {\n        return new ByteString($string ?? '');\n    }\n}\n\nif (!\\function_exists(s::class)) {\n    /**\n     * @return UnicodeString|ByteString\n     */\n    function s(?string $string = ''): AbstractString\n    {\n        $string = $string ?? '';\n\n        return preg_match('//u', $string) ? new UnicodeString($string) : new ByteString($string);\n    }\n}\n",
        names: "",
    },
    // Symfony/Component/Console/Output/BufferedOutput.php
    Real {
        text: "<?php\n\n/*\n * This file is part of the Symfony package.\n *\n * (c) Fabien Potencier <fabien@symfony.com>\n *\n * For the full copyright and license information, please view the LICENSE\n * file that was distributed with this source code.\n */\n\nnamespace Symfony\\Component\\Console\\Output;\n\n/**\n * @author Jean-François Simon <contact@jfsimon.fr>\n */\nclass BufferedOutput extends Output\n{\n    private $buffer = '';\n\n    /**\n     * Empties buffer and returns its content.\n     *\n     * @return string\n     */\n    public function fetch()\n    {\n        $content = $this->buffer;\n        $this->buffer = '';\n\n        return $content;\n    }\n\n    /**\n     * {@inheritdoc}\n     */\n    protected function doWrite(string $message, bool $newline)\n    {\n        $this->buffer .= $message;\n\n        if ($newline) {\n            $this->buffer .= \\PHP_EOL;\n        }\n    }\n}\n",
        names: "Symfony\\Component\\Console\\Output\\BufferedOutput ",
    },
    // Symfony/Contracts/Service/Attribute/Required.php
    Real {
        text: "<?php\n\n/*\n * This file is part of the Symfony package.\n *\n * (c) Fabien Potencier <fabien@symfony.com>\n *\n * For the full copyright and license information, please view the LICENSE\n * file that was distributed with this source code.\n */\n\nnamespace Symfony\\Contracts\\Service\\Attribute;\n\n/**\n * A required dependency.\n *\n * This attribute indicates that a property holds a required dependency. The annotated property or method should be\n * considered during the instantiation process of the containing class.\n *\n * @author Alexander M. Turek <me@derrabus.de>\n */\n#[\\Attribute(\\Attribute::TARGET_METHOD | \\Attribute::TARGET_PROPERTY)]\nfinal class Required\n{\n}\n",
        names: "Symfony\\Contracts\\Service\\Attribute\\Required ",
    },
    // Seld/JsonLint/DuplicateKeyException.php
    Real {
        text: "<?php\n\n/*\n * This file is part of the JSON Lint package.\n *\n * (c) Jordi Boggiano <j.boggiano@seld.be>\n *\n * For the full copyright and license information, please view the LICENSE\n * file that was distributed with this source code.\n */\n\nnamespace Seld\\JsonLint;\n\nclass DuplicateKeyException extends ParsingException\n{\n    /**\n     * @phpstan-ignore-next-line\n     * @var array{key: string, line: int}\n     */\n    protected $details;\n\n    /**\n     * @param string $message\n     * @param string $key\n     * @phpstan-param array{line: int} $details\n     */\n    public function __construct($message, $key, array $details)\n    {\n        $details['key'] = $key;\n        parent::__construct($message, $details);\n    }\n\n    /**\n     * @return string\n     */\n    public function getKey()\n    {\n        return $this->details['key'];\n    }\n\n    /**\n     * @phpstan-return array{key: string, line: int}\n     */\n    public function getDetails()\n    {\n        return $this->details;\n    }\n}\n",
        names: "Seld\\JsonLint\\DuplicateKeyException ",
    },
];

#[test]
fn real_files(rt: HostRuntime) -> Result<(), Fail> {
    for file in &FILES {
        let names = declared(rt.alloc(), file.text.as_bytes())?;
        let shown = text_of(&rt, &names)?;
        assert_eq!(rt; shown.as_slice(), file.names.as_bytes());
    }
    Ok(())
}
